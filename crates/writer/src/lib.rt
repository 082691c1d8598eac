// The image of a document whose words are held as codes, after image/specs/paper/Spell. Counts and record lengths stand in front of what they
// count, and are put there last.
#![tactic(auto)]

pub mod document;
pub mod literals;
pub mod statements;

use image::front::ATOMS;
use spelling::LONGEST_TEXT;

// A, B, and the counts of goal literals, clauses and constraints.
const OWN_FIELDS: usize = 5;

// The longest image of a text: but for those, every field costs a byte.
pub const IMAGE_ROOM: usize = ATOMS + 2 * (OWN_FIELDS + LONGEST_TEXT);
