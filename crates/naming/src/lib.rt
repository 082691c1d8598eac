// The words of a text with their numbers, and the table in which each of their names has its place.
#![tactic(auto)]

ghost use Rattle.std.specs.Prelude.{◌≡◌, List, ◌+◌, ◌≤◌, ◌<◌, length};
ghost use Rattle.spelling.specs.paper.Words.{same};
ghost use Rattle.spelling.specs.paper.Document.{Atom};
ghost use Rattle.spelling.specs.paper.Answer.{longest_text};
ghost use Rattle.spelling.specs.Reader.{atom_of};
ghost use Rattle.spelling.specs.Codes.{buckets};
ghost use Rattle.spelling.specs.Table.{name_at};
ghost use Rattle.naming.specs.Spans.{Name};
ghost use Rattle.naming.specs.Chains.{place_of};
ghost use Rattle.cutting.specs.CutOff.{word_at};
ghost use Rattle.naming.specs.Names.{Fresh, Sought, Written, Listed, NameTaken};
ghost use Rattle.naming.specs.Words.{Past, WordTaken};
ghost use Rattle.naming.specs.Taken.{Ready, TakenWords};

use cutting::in_name;
use spelling::{ABD, BUCKETS, LONGEST_TEXT, NAMES};

// Whether the name of `n` bytes at `at` is the one that stands before it, at `there`.
fn same_name(text: &[u8], at: usize, there: usize, n: usize) -> bool
    requires { Name text.now at n × (there < at) }
    ensures { result ≡ same (name_at text.now at) (name_at text.now there) }
{
    text[there..].starts_with(&text[at..at + n]) && !in_name(text[there + n])
}

// The names met so far. `entries` has for each twice the place in the text where it is first met, and one more if it is marked there. `latest`
// has for each bucket 1 + the latest entry, and `earlier`, for each entry, 1 + the one of the same bucket before it (0: none).
#[derive(Drop)]
pub struct Table {
    pub entries: [u16; LONGEST_TEXT],
    pub earlier: [u16; LONGEST_TEXT],
    latest: [u16; BUCKETS],
    // How many names there are, how many of these are marked where they are first met, and whether a later mention differs.
    pub names: usize,
    pub marked: usize,
    pub clash: bool,
}

// A word's number, and where it ends.
#[derive(Clone, Copy, Debug, PartialEq, Eq)]
struct Word {
    code: u16,
    end: usize,
}

impl Table {
    pub fn new() -> Self
        ensures { Fresh result }
    {
        Table {
            entries: [0; LONGEST_TEXT],
            earlier: [0; LONGEST_TEXT],
            latest: [0; BUCKETS],
            names: 0,
            marked: 0,
            clash: false,
        }
    }

    // The place in the table of the name at `at`.
    fn find(&self, text: &[u8], at: usize, n: usize, hash: usize) -> Option<usize>
        requires sought { Sought text.now at n hash }
        requires listed { (names : List Atom) × Listed text.now self.now names at }
        ensures { (names : List Atom) → Listed text.now self.now names at → result ≡ place_of names (name_at text.now at) }
    {
        let mut link = usize::from(self.latest[hash]);
        while 0 < link {
            let i = link - 1;
            if same_name(text, at, usize::from(self.entries[i]) / 2, n) {
                return Some(i);
            }
            link = usize::from(self.earlier[i]);
        }
        None
    }

    // A new entry.
    fn enter(&mut self, at: usize, hash: usize, marked: bool)
        requires { (self.old.names < longest_text) × (self.old.marked < longest_text) × (at < longest_text) × (hash < buckets) }
        ensures { Written self.old at hash marked self.new }
    {
        self.entries[self.names] = 2 * at as u16 + u16::from(marked);
        self.earlier[self.names] = self.latest[hash];
        self.names += 1;
        self.latest[hash] = self.names as u16;
        self.marked += usize::from(marked);
    }

    // The number of the name at `at`, which is entered where it is new.
    fn take_name(&mut self, text: &[u8], at: usize, n: usize, hash: usize, marked: bool) -> u16
        requires sought { Sought text.now at n hash }
        requires listed { (names : List Atom) × Listed text.now self.old names at }
        ensures { (names : List Atom) → Listed text.now self.old names at
            → NameTaken text.now self.old self.new names (atom_of (name_at text.now at) marked) (at + 1) result }
    {
        match self.find(text, at, n, hash) {
            None => {
                let code = NAMES + self.names as u16;
                self.enter(at, hash, marked);
                code
            }
            Some(i) => {
                self.clash |= self.entries[i] % 2 != u16::from(marked);
                NAMES + i as u16
            }
        }
    }

    // The word at `at`; `marked` tells whether the one before it is `abd(`.
    fn take_word(&mut self, text: &[u8], at: usize, marked: bool) -> Word
        requires at_in_bounds { (at < length text.now) × (length text.now ≤ longest_text) }
        requires listed { (names : List Atom) × Listed text.now self.old names at }
        ensures past { Past text.now at result.end }
        ensures taken { (names : List Atom) → Listed text.now self.old names at
            → WordTaken text.now self.old self.new names (word_at text.now at) marked result.code result.end }
    {
        let cut = cutting::word_at(text, at);
        let code = if cut.code == NAMES {
            self.take_name(text, at, cut.end - at, cut.hash, marked)
        } else {
            cut.code
        };
        Word { code, end: cut.end }
    }

    // How many words a text has: their numbers go to `codes`, and their names to the table.
    pub fn take_words(&mut self, text: &[u8], codes: &mut [u16; LONGEST_TEXT]) -> usize
        requires { Ready text.now codes.old self.old }
        ensures { TakenWords text.now codes.new self.new result }
    {
        let mut words = 0;
        let mut marked = false;
        let mut at = cutting::blanks_end(text, 0);
        while at < text.len() {
            let word = self.take_word(text, at, marked);
            codes[words] = word.code;
            words += 1;
            marked = word.code == ABD;
            at = cutting::blanks_end(text, word.end);
        }
        words
    }
}
