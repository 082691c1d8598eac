// Refusal 9 in marks of atoms. Where no clause names an atom that has a clause with a body at or before it, the book has no loop. Otherwise each
// loop goes through an atom that is late: a clause of it, with a body, stands at or behind one that names it. In rounds over the clauses such
// atoms are let go, until none is held, and the book has no loop, or a round lets none go.
#![tactic(auto)]

ghost use Rattle.std.specs.Prelude.{◌≡◌, ℕ};
ghost use Rattle.image.specs.paper.Book.{Book};
ghost use Rattle.image.specs.paper.Front.{atoms_at};
ghost use Rattle.image.specs.paper.Walk.{found};
ghost use Rattle.image.specs.paper.Faults.{limits};
ghost use Rattle.image.specs.paper.Decode.{whole};
ghost use Rattle.image.specs.paper.Loops.{quiet, loop_free};
ghost use Rattle.marks.specs.Marked.{marked};
ghost use Rattle.loops.specs.Left.{clauses_of};
ghost use Rattle.loops.specs.Naming.{unmarked};
ghost use Rattle.loops.specs.Order.{descends, late};
ghost use Rattle.loops.specs.Rounds.{round};

use clauses::Clauses;
pub use clauses::mark_body;
use marks::Marks;

pub mod clauses;

// Whether no clause names an atom that has a clause with a body at or before it.
fn descends(clauses: Clauses) -> bool
    ensures { result ≡ descends (clauses_of clauses.entry) unmarked }
{
    let mut heads = Marks::none();
    for clause in clauses {
        if clause.has_body() {
            heads.mark(clause.head());
            if clause.names_marked(&heads) {
                return false;
            }
        }
    }
    true
}

// The heads of clauses with a body that stand at or behind a clause that names the head.
fn late(clauses: Clauses) -> Marks
    ensures { (q : ℕ) → marked result q ≡ late (clauses_of clauses.entry) unmarked unmarked q }
{
    let mut named = Marks::none();
    let mut found = Marks::none();
    for clause in clauses {
        if clause.has_body() {
            let head = clause.head();
            clause.mark_body(&mut named);
            if named.has(head) {
                found.mark(head);
            }
        }
    }
    found
}

// One round over the clauses: which held atoms have a clause that names one that is held, or one that this round found to wait for such.
fn round(clauses: Clauses, held: Marks) -> Marks
    ensures { (q : ℕ) → marked result q ≡ round (clauses_of clauses.entry) (marked held) (marked held) unmarked q }
{
    let mut all = held;
    let mut left = Marks::none();
    for clause in clauses {
        if clause.names_marked(&all) {
            let head = clause.head();
            if held.has(head) {
                left.mark(head);
            } else {
                all.mark(head);
            }
        }
    }
    left
}

// Whether every atom settles. As many rounds as there are atoms are enough.
fn settles(clauses: Clauses) -> bool
    ensures { result ≡ quiet (clauses_of clauses.entry) clauses.entry.atoms clauses.entry.atoms }
{
    if descends(clauses) {
        return true;
    }
    let mut held = late(clauses);
    for _ in 0..clauses.atoms {
        if held.is_none() {
            return true;
        }
        let left = round(clauses, held);
        if left == held {
            return false;
        }
        held = left;
    }
    held.is_none()
}

// Whether the book that the walk found has no loop.
pub fn is_loop_free(image: &[u8]) -> bool
    requires { (b : Book) × (next : ℕ) × (whole image.now limits atoms_at ≡ found b next) }
    ensures { (b : Book) (next : ℕ) → whole image.now limits atoms_at ≡ found b next → result ≡ loop_free b }
{
    settles(Clauses::of(image))
}
