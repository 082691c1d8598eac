// The place of refusal 9: which clause is the first whose head depends on itself. From a head, the atoms of its bodies are marked, those of
// the bodies of what is marked, and so on, until the head is marked itself or a round over the clauses marks nothing more.
#![tactic(auto)]

ghost use Rattle.std.specs.Prelude.{◌≡◌, ℕ, ◌<◌};
ghost use Rattle.image.specs.paper.Book.{Book};
ghost use Rattle.image.specs.paper.Front.{atoms_at};
ghost use Rattle.image.specs.paper.Walk.{found};
ghost use Rattle.image.specs.paper.Faults.{limits};
ghost use Rattle.image.specs.paper.Loops.{reached};
ghost use Rattle.image.specs.paper.Decode.{whole, loop_place};
ghost use Rattle.marks.specs.Marked.{marked};
ghost use Rattle.loops.specs.Left.{clauses_of};
ghost use Rattle.depends.specs.Spreading.{spread};
ghost use Rattle.depends.specs.Before.{depends_on_itself, before, bytes};

use image::front;
use loops::clauses::Clauses;
use marks::Marks;

// One round over the clauses: the body of each clause whose head is the atom, or is marked by then, is marked.
fn spread(clauses: Clauses, atom: u32, already: Marks) -> Marks
    ensures { (q : ℕ) → marked result q ≡ spread (clauses_of clauses.entry) atom (marked already) q }
{
    let mut all = already;
    for clause in clauses {
        let head = clause.head();
        if head == atom || all.has(head) {
            clause.mark_body(&mut all);
        }
    }
    all
}

// Whether an atom depends on itself. As many rounds as there are atoms are enough.
fn depends_on_itself(clauses: Clauses, atom: u32) -> bool
    requires { atom < limits.atoms }
    ensures { result ≡ reached (clauses_of clauses.entry) clauses.entry.atoms atom atom }
{
    let mut all = Marks::none();
    for _ in 0..clauses.atoms {
        let next = spread(clauses, atom, all);
        if next.has(atom) {
            return true;
        }
        if next == all {
            return false;
        }
        all = next;
    }
    false
}

// How many bytes stand before the record of the first clause whose head depends on itself; where none does, how many the clauses have.
// `free` has the heads that were met and do not.
fn before_loop(clauses: Clauses) -> usize
    ensures { result ≡ bytes (before (depends_on_itself (clauses_of clauses.entry) clauses.entry.atoms) (clauses_of clauses.entry)) }
{
    let mut free = Marks::none();
    let mut passed = 0;
    for clause in clauses {
        let head = clause.head();
        if !free.has(head) {
            if depends_on_itself(clauses, head) {
                return passed;
            }
            free.mark(head);
        }
        passed += clause.size();
    }
    passed
}

// The place of the record of the first clause whose head depends on itself; where none does, the place behind the clauses.
pub fn place(image: &[u8]) -> usize
    requires { (b : Book) × (next : ℕ) × (whole image.now limits atoms_at ≡ found b next) }
    ensures { (b : Book) (next : ℕ) → whole image.now limits atoms_at ≡ found b next → result ≡ loop_place b }
{
    front::clauses(image) + 2 + before_loop(Clauses::of(image))
}
