// Whether the words of a text, as codes, spell a document, and where its goal line stands: after the grammar of spelling/specs/paper/Document, as
// specs/Places has it. A function that looks for a thing answers the place behind it, where it begins here.
#![tactic(auto)]

ghost use Rattle.std.specs.Prelude.{◌≡◌, ◌<◌, ℕ, false, MatchOption, eqb, length};
ghost use Rattle.spelling.specs.Codes.{other_code};
ghost use Rattle.grammar.specs.Places.{Ends, Thing, WordFound, end_or, stands, name_end, bracketed_end, separated_end, atom_end, literal_end, literals_end, side_end, ways_end, conclusion_end, constraint_end, statement_end, statements_end, ends_with_goal, goal_place};

use spelling::{ABD, ARROW, CLOSE, COMMA, DOT, FALSE, NAF, NAMES, NECK, QUERY, SEMICOLON, TRUE};

fn stands(codes: &[u16], word: u16, at: usize) -> bool
    requires { word < other_code }
    ensures { result ≡ stands codes.now word at }
{
    at < codes.len() && codes[at] == word
}

// Behind this word.
fn word_end(codes: &[u16], word: u16, at: usize) -> Option<usize>
    requires { word < other_code }
    ensures { WordFound codes.now word at result }
{
    if stands(codes, word, at) {
        Some(at + 1)
    } else {
        None
    }
}

fn name_end(codes: &[u16], at: usize) -> Option<usize>
    ensures { end_or codes.now result ≡ name_end codes.now at }
{
    if at < codes.len() && NAMES <= codes[at] {
        Some(at + 1)
    } else {
        None
    }
}

// An item, or the same behind this word and closed.
fn bracketed_end<F: Fn(usize) -> Option<usize>>(
    codes: &[u16],
    word: u16,
    item: F,
    at: usize,
) -> Option<usize>
    ghost item_end: { ℕ → ℕ }
    requires callable { F.IsAlwaysCallable item }
    requires known { word < other_code }
    requires ends { Ends codes.now (F.post item) item_end }
    ensures { end_or codes.now result ≡ bracketed_end codes.now word item_end at }
{
    match word_end(codes, word, at) {
        Some(inside) => word_end(codes, CLOSE, item(inside)?),
        None => item(at),
    }
}

// item { separator item }
fn separated_end<F: Fn(usize) -> Option<usize>>(
    codes: &[u16],
    separator: u16,
    item: F,
    start: usize,
) -> Option<usize>
    ghost thing: { Thing }
    requires callable { F.IsAlwaysCallable item }
    requires known { separator < other_code }
    requires ends { Ends codes.now (F.post item) (thing.end codes.now) }
    ensures { end_or codes.now result ≡ separated_end codes.now separator (thing.end codes.now) (length codes.now) start }
{
    let mut at = item(start)?;
    while let Some(next) = word_end(codes, separator, at) {
        at = item(next)?;
    }
    Some(at)
}

// atom = name | "abd(" name ")"
fn atom_end(codes: &[u16], at: usize) -> Option<usize>
    ensures { end_or codes.now result ≡ atom_end codes.now at }
{
    bracketed_end(codes, ABD, |at| name_end(codes, at), at)
}

// literal = atom | "naf(" atom ")"
fn literal_end(codes: &[u16], at: usize) -> Option<usize>
    ensures { end_or codes.now result ≡ literal_end codes.now at }
{
    bracketed_end(codes, NAF, |at| atom_end(codes, at), at)
}

// literals = literal { "," literal }
fn literals_end(codes: &[u16], start: usize) -> Option<usize>
    ensures { end_or codes.now result ≡ literals_end codes.now start }
{
    separated_end(codes, COMMA, |at| literal_end(codes, at), start)
}

// ( "true" | literals )
fn side_end(codes: &[u16], at: usize) -> Option<usize>
    ensures { end_or codes.now result ≡ side_end codes.now at }
{
    word_end(codes, TRUE, at).or(literals_end(codes, at))
}

// literals { ";" literals }
fn ways_end(codes: &[u16], start: usize) -> Option<usize>
    ensures { end_or codes.now result ≡ ways_end codes.now start }
{
    separated_end(codes, SEMICOLON, |at| literals_end(codes, at), start)
}

// ( "false" | literals { ";" literals } )
fn conclusion_end(codes: &[u16], at: usize) -> Option<usize>
    ensures { end_or codes.now result ≡ conclusion_end codes.now at }
{
    word_end(codes, FALSE, at).or(ways_end(codes, at))
}

// constraint = ( "true" | literals ) "--->" ( "false" | literals { ";" literals } ) "."
fn constraint_end(codes: &[u16], at: usize) -> Option<usize>
    ensures { end_or codes.now result ≡ constraint_end codes.now at }
{
    let side = side_end(codes, at)?;
    let arrow = word_end(codes, ARROW, side)?;
    let conclusion = conclusion_end(codes, arrow)?;
    word_end(codes, DOT, conclusion)
}

// clause = atom "." | atom ":-" literals "."; what else begins here is a constraint
fn statement_end(codes: &[u16], at: usize) -> Option<usize>
    ensures { end_or codes.now result ≡ statement_end codes.now at }
{
    match atom_end(codes, at) {
        Some(head) if stands(codes, DOT, head) => Some(head + 1),
        Some(head) if stands(codes, NECK, head) => {
            let body = literals_end(codes, head + 1)?;
            word_end(codes, DOT, body)
        }
        _ => constraint_end(codes, at),
    }
}

// Where the statements end: the first "?-" that stands where one could begin, or the end of the words.
fn statements_end(codes: &[u16]) -> Option<usize>
    ensures { end_or codes.now result ≡ statements_end codes.now (length codes.now) 0 }
{
    let mut at = 0;
    while at < codes.len() && codes[at] != QUERY {
        at = statement_end(codes, at)?;
    }
    Some(at)
}

// goal = "?-" ( "true" | literals ) "."
fn goal_end(codes: &[u16], at: usize) -> Option<usize>
    ensures { MatchOption result (ends_with_goal codes.now at ≡ false) (λ end. ends_with_goal codes.now at ≡ eqb end (length codes.now)) }
{
    let query = word_end(codes, QUERY, at)?;
    let side = side_end(codes, query)?;
    word_end(codes, DOT, side)
}

// text = { clause | constraint } goal, and nothing behind it: the place of the goal line's "?-", where the words spell a document.
pub fn goal_place(codes: &[u16]) -> Option<usize>
    ensures { result ≡ goal_place codes.now }
{
    let at = statements_end(codes)?;
    let end = goal_end(codes, at)?;
    if end == codes.len() { Some(at) } else { None }
}
