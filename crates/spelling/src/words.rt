// The fixed words, as they stand in a text: those of specs/paper/Words.

pub const ABD_WORD: [u8; 4] = *b"abd(";

pub const NAF_WORD: [u8; 4] = *b"naf(";

pub const CLOSE_WORD: [u8; 1] = *b")";

pub const COMMA_WORD: [u8; 1] = *b",";

pub const NECK_WORD: [u8; 2] = *b":-";

pub const SEMICOLON_WORD: [u8; 1] = *b";";

pub const DOT_WORD: [u8; 1] = *b".";

pub const ARROW_WORD: [u8; 4] = *b"--->";

pub const QUERY_WORD: [u8; 2] = *b"?-";

pub const TRUE_WORD: [u8; 4] = *b"true";

pub const FALSE_WORD: [u8; 5] = *b"false";

// abd and naf without their sign, which are no names.
pub const BARE_ABD: [u8; 3] = *b"abd";

pub const BARE_NAF: [u8; 3] = *b"naf";

// How many bytes a name may have.
pub const LONGEST_NAME: usize = 31;
