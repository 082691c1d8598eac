// The work area's layout, in numbers of 32 bits: where each table begins, and how wide an entry of it is. Each begins where the
// one before it ends, by the limits; the search writes none from LITERALS to TRAIL. An agenda is at, end and link: the
// literals from at to end of the image, or, where there is no end, the record at and those behind it; then what the cell at link has.
#![tactic(auto)]

pub mod links;
pub mod ways;

ghost use Rattle.std.specs.Prelude.{◌≡◌, ◌++◌, ◌≤◌, length, drop};
ghost use Rattle.sets.specs.paper.Kept.{zeros};

use image::limits::{MOST_ATOMS, MOST_BODIES, MOST_CLAUSES, MOST_CONSTRAINTS, MOST_LITERALS};

// A literal's number is below this: twice its atom, and 1 more if negated.
pub const LITERAL_NUMBERS: usize = 2 * MOST_ATOMS as usize;

// A list of literals as one number: a literal, this for none, or a part of the image, as its place and PLACES times its count.
pub const NO_LIST: usize = LITERAL_NUMBERS;

pub const PLACES: usize = 16384;

// What wanting a literal does while its atom is unmarked: it fails, it joins, it joins the set too; else the number is the first
// way of its atom, or the first record to break.
pub const FAILS: u32 = 0;

pub const JOINS: u32 = 1;

pub const JOINS_SET: u32 = 2;

// No mark; that of a literal is its number and 1.
pub const NO_MARK: u32 = 0;

// The first way of the record behind the last constraint: there is no task left.
pub const NO_TASK: u32 = 1;

// No way, no record: where a link leads nowhere.
pub const NO_LINK: u32 = 0;

// The end of an agenda that begins with a record.
pub const NO_END: usize = 0;

// The marks of the atoms.
pub const MARKS: usize = 0;

// What wanting each literal does.
pub const LITERALS: usize = MARKS + MOST_ATOMS as usize;

// Records: the first way, and the next record to break. First those of the clauses, then those of the constraints and of their end.
pub const RECORD_WIDTH: usize = 2;

pub const CLAUSE_RECORDS: usize = LITERALS + LITERAL_NUMBERS;

pub const CONSTRAINT_RECORDS: usize = CLAUSE_RECORDS + RECORD_WIDTH * MOST_CLAUSES as usize;

// Cells, agendas at rest: for each constraint its record, and the cell of the next.
pub const CELL_WIDTH: usize = 3;

pub const CELLS: usize = CONSTRAINT_RECORDS + RECORD_WIDTH * (MOST_CONSTRAINTS as usize + 1);

// Ways: a list of literals, and the next way. First those through the clauses, one for each.
pub const WAY_WIDTH: usize = 2;

pub const WAYS: usize = CELLS + CELL_WIDTH * (MOST_CONSTRAINTS as usize + 2);

// The trail: for each mark a cell, the agenda behind the mark's tasks, and the literal.
pub const TRAIL_WIDTH: usize = 4;

pub const TRAIL: usize = WAYS
    + WAY_WIDTH * (MOST_CLAUSES as usize + MOST_BODIES as usize + MOST_LITERALS as usize);

// Frames: the trail's end, the set in two halves, the agenda, and the next way.
pub const FRAME_WIDTH: usize = 7;

pub const MOST_FRAMES: usize = MOST_CONSTRAINTS as usize
    + MOST_ATOMS as usize
    + MOST_CLAUSES as usize;

pub const FRAMES: usize = TRAIL + TRAIL_WIDTH * MOST_ATOMS as usize;

// 21: "the work area has fewer than 16,384 numbers of 32 bits" (paper 01, 8.1)
pub const END: usize = 16384;

// Zeros in the first n numbers.
pub fn wipe(work: &mut [u32], n: usize)
    requires { n ≤ length work.old }
    ensures { work.new ≡ zeros n ++ drop n work.old }
{
    work[..n].fill(0);
}
