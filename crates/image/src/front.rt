// Where an image has its counts: A, B and the goal at its front, the clause count behind the goal, and the constraint count behind the
// clauses. The places are those of specs/paper/Front and Shown.

ghost use Rattle.std.specs.Prelude.{◌≡◌, ◌≤◌, ◌<◌, length};
ghost use Rattle.image.specs.paper.Front.{atoms_at};
ghost use Rattle.image.specs.Shown.{abducibles_at, goals_at, goal_at, clause_count_at, constraint_count_at};
ghost use Rattle.image.specs.paper.Walk.{field_at, field_values};
ghost use Rattle.image.specs.Accepted.{IsBook};

use super::fields::field_at;

// The version byte, and its place.
pub const VERSION: u8 = 1;

pub const VERSION_AT: usize = 0;

// The length of the rest, as two fields, the high one first.
pub const LENGTH: usize = VERSION_AT + 1;

pub const LENGTH_LOW: usize = LENGTH + 2;

pub const ATOMS: usize = LENGTH_LOW + 2;

pub const ABDUCIBLES: usize = ATOMS + 2;

// The goal count, and the goal literals.
pub const GOALS: usize = ABDUCIBLES + 2;

pub const GOAL: usize = GOALS + 2;

// A.
pub fn atoms(image: &[u8]) -> u32
    requires { goal_at ≤ length image.now }
    ensures { (result ≡ field_at image.now atoms_at) × (result < field_values) }
{
    field_at(image, ATOMS)
}

// B.
pub fn abducibles(image: &[u8]) -> u32
    requires { goal_at ≤ length image.now }
    ensures { (result ≡ field_at image.now abducibles_at) × (result < field_values) }
{
    field_at(image, ABDUCIBLES)
}

// How many goal literals there are.
pub fn goals(image: &[u8]) -> usize
    requires { goal_at ≤ length image.now }
    ensures { (result ≡ field_at image.now goals_at) × (result < field_values) }
{
    field_at(image, GOALS) as usize
}

// The place of the clause count, behind the goal.
pub fn clauses(image: &[u8]) -> usize
    requires { goal_at ≤ length image.now }
    ensures { result ≡ clause_count_at image.now }
{
    GOAL + 2 * goals(image)
}

// The place of the constraint count, behind the clauses.
pub fn constraints(image: &[u8]) -> usize
    requires { IsBook image.now }
    ensures { result ≡ constraint_count_at image.now }
{
    let counted = clauses(image);
    let count = field_at(image, counted);
    let mut place = counted + 2;
    for _ in 0..count {
        place += 2 + field_at(image, place) as usize;
    }
    place
}
