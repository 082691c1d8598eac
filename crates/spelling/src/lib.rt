// Rules as surveyors type them: what a text says and what is answered stand in specs/. Here are the numbers of words that the code over it
// shares, as specs/Codes has them.
#![tactic(auto)]

pub mod words;

// The fixed words.
pub const ABD: u16 = 0;

pub const NAF: u16 = 1;

pub const CLOSE: u16 = 2;

pub const COMMA: u16 = 3;

pub const NECK: u16 = 4;

pub const SEMICOLON: u16 = 5;

pub const DOT: u16 = 6;

pub const ARROW: u16 = 7;

pub const QUERY: u16 = 8;

pub const TRUE: u16 = 9;

pub const FALSE: u16 = 10;

// A word that no document has.
pub const OTHER: u16 = 11;

// The first name; the others follow.
pub const NAMES: u16 = 12;

// How many bytes a text may have, and so how many words.
pub const LONGEST_TEXT: usize = 32768;

// The name table's buckets.
pub const BUCKETS: usize = 4096;
