// Words cut off a text, as spelling/specs/Cut has them: where the blanks end, and the word that stands there.
#![tactic(auto)]

ghost use Rattle.std.specs.Prelude.{◌≡◌, [], ◌∷◌, ◌+◌, ◌≤◌, ◌<◌, length, drop};
ghost use Rattle.spelling.specs.paper.Words.{blank, in_name, same};
ghost use Rattle.spelling.specs.paper.Answer.{longest_text};
ghost use Rattle.spelling.specs.Cut.{begins};
ghost use Rattle.spelling.specs.Codes.{code_of, hash_values, hash_from};
ghost use Rattle.spelling.specs.Table.{name_at};
ghost use Rattle.cutting.specs.CutOff.{longest_word, BlanksEnd, CutOff, Fixed, RunAt, run_code};

use spelling::words::{
    ABD_WORD, ARROW_WORD, BARE_ABD, BARE_NAF, CLOSE_WORD, COMMA_WORD, DOT_WORD, FALSE_WORD,
    LONGEST_NAME, NAF_WORD, NECK_WORD, QUERY_WORD, SEMICOLON_WORD, TRUE_WORD,
};
use spelling::{
    ABD, ARROW, BUCKETS, CLOSE, COMMA, DOT, FALSE, NAF, NAMES, NECK, OTHER, QUERY, SEMICOLON, TRUE,
};

// The hash's factor, and what it stays below on the way.
const HASH_FACTOR: usize = 9;

const HASH_VALUES: usize = 1 << 32;

#[derive(Clone, Copy, Debug, PartialEq, Eq)]
pub struct Cut {
    pub code: u16,
    pub end: usize,
    pub hash: usize,
}

#[derive(Clone, Copy, Debug, PartialEq, Eq)]
struct Run {
    end: usize,
    hash: usize,
}

#[tactic(auto, unfolding(spelling::specs::paper::Words::blank))]
fn is_blank(b: u8) -> bool
    ensures { result ≡ blank b }
{
    b == b' ' || b == b'\t' || b == b'\n' || b == b'\r'
}

// The first place from `at` on where no blank stands.
pub fn blanks_end(text: &[u8], at: usize) -> usize
    requires { at ≤ length text.now }
    ensures { BlanksEnd text.now at result }
{
    for i in at..text.len() {
        if !is_blank(text[i]) {
            return i;
        }
    }
    text.len()
}

// Whether a word stands at a place.
pub fn begins(text: &[u8], at: usize, word: &[u8]) -> bool
    requires { at ≤ length text.now }
    ensures { result ≡ begins word.now (drop at text.now) }
{
    text[at..].starts_with(word)
}

#[tactic(auto, unfolding(spelling::specs::paper::Words::in_name, spelling::specs::paper::Words::small))]
pub fn in_name(b: u8) -> bool
    ensures { result ≡ in_name b }
{
    b.is_ascii_alphanumeric() || b == b'_'
}

// The hash of a run with one byte more.
#[tactic(auto, unfolding(spelling::specs::Codes::hash_from))]
fn hash_on(hash: usize, b: u8) -> usize
    requires { hash < hash_values }
    ensures { (result ≡ hash_from hash (b ∷ [])) × (result < hash_values) }
{
    (HASH_FACTOR * hash + usize::from(b)) % HASH_VALUES
}

// The run of letters, digits and underscores at a place. Most are small letters, which are tested first and apart.
fn run_at(text: &[u8], at: usize) -> Run
    requires { at ≤ length text.now }
    ensures { RunAt text.now at result.end result.hash }
{
    let mut hash = 0;
    for i in at..text.len() {
        let b = text[i];
        if !b.is_ascii_lowercase() && !in_name(b) {
            return Run {
                end: i,
                hash: hash % BUCKETS,
            };
        }
        hash = hash_on(hash, b);
    }
    Run {
        end: text.len(),
        hash: hash % BUCKETS,
    }
}

// The cut of a fixed word.
fn fixed(code: u16, at: usize, size: usize) -> Cut
    requires { at + size ≤ longest_text + longest_word }
    ensures { Fixed code at size result.code result.end result.hash }
{
    Cut {
        code,
        end: at + size,
        hash: 0,
    }
}

// The signs with their codes.
const SIGNS: [(&[u8], u16); 7] = [
    (&COMMA_WORD, COMMA),
    (&CLOSE_WORD, CLOSE),
    (&DOT_WORD, DOT),
    (&NECK_WORD, NECK),
    (&SEMICOLON_WORD, SEMICOLON),
    (&ARROW_WORD, ARROW),
    (&QUERY_WORD, QUERY),
];

// The sign at a place that has no run.
fn sign_at(text: &[u8], at: usize) -> Cut
    requires { (at < length text.now) × (length text.now ≤ longest_text) × (name_at text.now at ≡ []) }
    ensures { CutOff text.now at result.code result.end result.hash }
{
    for (word, code) in &SIGNS {
        if begins(text, at, word) {
            return fixed(*code, at, word.len());
        }
    }
    fixed(OTHER, at, 1)
}

// Whether the run from `at` to `end` is a word.
fn is_run(text: &[u8], at: usize, end: usize, word: &[u8]) -> bool
    requires { (end ≤ length text.now) × (end ≡ at + length (name_at text.now at)) }
    ensures { result ≡ same (name_at text.now at) word.now }
{
    &text[at..end] == word
}

// The code of a run of `size` bytes that is no fixed word.
#[tactic(auto, unfolding(crate::specs::CutOff::run_code, spelling::specs::paper::Words::small))]
fn name_code(first: u8, size: usize) -> u16
    ensures { result ≡ run_code first size }
{
    if LONGEST_NAME < size {
        return OTHER;
    }
    if first.is_ascii_lowercase() {
        return NAMES;
    }
    OTHER
}

// The runs that are no names, with their codes.
const RUNS: [(&[u8], u16); 4] = [
    (&TRUE_WORD, TRUE),
    (&FALSE_WORD, FALSE),
    (&BARE_ABD, OTHER),
    (&BARE_NAF, OTHER),
];

// The code of the run from `at` to `end`.
fn run_code(text: &[u8], at: usize, end: usize) -> u16
    requires { (at < end) × (end ≤ length text.now) × (end ≡ at + length (name_at text.now at)) }
    ensures { result ≡ code_of [] (name_at text.now at) }
{
    for (word, code) in &RUNS {
        if is_run(text, at, end, word) {
            return *code;
        }
    }
    name_code(text[at], end - at)
}

// The word at a place that has no blank. A run that is longer than each fixed word is compared with none.
pub fn word_at(text: &[u8], at: usize) -> Cut
    requires { (at < length text.now) × (length text.now ≤ longest_text) }
    ensures { CutOff text.now at result.code result.end result.hash }
{
    let Run { end, hash } = run_at(text, at);
    if end == at {
        return sign_at(text, at);
    }
    if FALSE_WORD.len() < end - at {
        return Cut {
            code: name_code(text[at], end - at),
            end,
            hash,
        };
    }
    if begins(text, at, &ABD_WORD) {
        return fixed(ABD, at, ABD_WORD.len());
    }
    if begins(text, at, &NAF_WORD) {
        return fixed(NAF, at, NAF_WORD.len());
    }
    Cut {
        code: run_code(text, at, end),
        end,
        hash,
    }
}
