// The limits of paper 01, 3.4, as specs/paper/Faults has them.

use super::front::ATOMS;

pub const MOST_ATOMS: u32 = 256;

pub const MOST_ABDUCIBLES: u32 = 64;

pub const MOST_GOAL: u32 = 16;

pub const MOST_CLAUSES: u32 = 512;

pub const MOST_BODIES: u32 = 1024;

pub const MOST_CONSTRAINTS: u32 = 128;

pub const MOST_LITERALS: u32 = 1024;

// The most fields that the limits allow, and the longest image in bytes, as specs/Encode has them: A and B; the goal; each clause's record length
// and head, and all bodies; each constraint's record length and condition count, and all literals, each with a count of its own.
const MOST_WORDS: u32 = 2
    + (1 + MOST_GOAL)
    + (1 + 2 * MOST_CLAUSES + MOST_BODIES)
    + (1 + 2 * MOST_CONSTRAINTS + 2 * MOST_LITERALS);

pub const LONGEST_IMAGE: usize = ATOMS + 2 * MOST_WORDS as usize;
