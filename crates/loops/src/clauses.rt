// A book's clauses as their records stand in the image, one behind the other; one clause; and the atoms of its body.

ghost use Rattle.std.specs.Prelude.{ℕ, ◌≡◌, true, ◌||◌, ◌%◌, ◌≤◌, ◌<◌, length};
ghost use Rattle.image.specs.paper.Faults.{limits};
ghost use Rattle.marks.specs.Marked.{marked};
ghost use Rattle.loops.specs.Records.{clause_in, lits_in, recorded, fine, below_all, Small};
ghost use Rattle.loops.specs.Naming.{names};

use image::{fields, front};
use marks::Marks;

// The clauses from some record on, and how many atoms the book has. Each atom that they name is one of those.
#[derive(Clone, Copy, Debug)]
pub struct Clauses<'a> {
    rest: &'a [u8],
    left: u32,
    pub atoms: u32,
    pub ghost known: { (1 ≤ atoms) × (atoms ≤ limits.atoms) },
    pub ghost stand: { recorded atoms rest.now left ≡ true },
}

// One clause, lent from its head to its record's end.
#[derive(Clone, Copy, Debug)]
pub struct Record<'a> {
    part: &'a [u8],
    ghost whole: { (2 ≤ length part.now) × (length part.now % 2 ≡ 0) },
    ghost small: { fine limits.atoms (clause_in part.now) ≡ true },
}

// The atoms of a body, from some literal on.
#[derive(Clone, Copy, Debug)]
struct Atoms<'a> {
    rest: &'a [u8],
    ghost small: { below_all limits.atoms (lits_in rest.now) ≡ true },
}

impl<'a> Clauses<'a> {
    ghost use Rattle.std.specs.Prelude.{ℕ};
    ghost use Rattle.image.specs.paper.Book.{Book};
    ghost use Rattle.image.specs.paper.Front.{atoms_at};
    ghost use Rattle.image.specs.paper.Walk.{found};
    ghost use Rattle.image.specs.paper.Decode.{whole};
    ghost use Rattle.loops.specs.Left.{clauses_of};

    // All clauses of the book that the walk found.
    pub fn of(image: &'a [u8]) -> Clauses<'a>
        requires { (b : Book) × (next : ℕ) × (whole image.now limits atoms_at ≡ found b next) }
        ensures { (b : Book) (next : ℕ) → whole image.now limits atoms_at ≡ found b next → (clauses_of result ≡ b.clauses) × (result.atoms ≡ b.atoms) }
    {
        let at = front::clauses(image);
        Clauses {
            rest: &image[at + 2..],
            left: fields::field_at(image, at),
            atoms: front::atoms(image),
        }
    }
}

impl<'a> Iterator for Clauses<'a> {
    ghost use Rattle.std.specs.Iterator.{YieldsFirstBy, item_count};
    ghost use Rattle.loops.specs.Left.{clause_of, clauses_of};

    type Item = Record<'a>;

    ghost next_gives = { YieldsFirstBy clause_of clauses_of };

    ghost remaining = { item_count clauses_of };

    fn next(&mut self) -> Option<Record<'a>> {
        if self.left == 0 {
            return None;
        }
        let size = fields::field_at(self.rest, 0) as usize;
        let (part, rest) = self.rest[2..].split_at(size);
        self.rest = rest;
        self.left -= 1;
        Some(Record { part })
    }
}

impl<'a> Record<'a> {
    ghost use Rattle.std.specs.Prelude.{ℕ, ◌||◌, ◌*◌, map};
    ghost use Rattle.image.specs.paper.Book.{Lit};
    ghost use Rattle.image.specs.Spell.{of_clause};
    ghost use Rattle.marks.specs.Marked.{marked};
    ghost use Rattle.loops.specs.Naming.{bodied, names, names_marked};
    ghost use Rattle.loops.specs.Left.{clause_of, atoms_of};

    // Its head.
    pub fn head(self) -> u32
        ensures { (result ≡ (clause_of self.entry).head) × (result < limits.atoms) }
    {
        fields::field_at(self.part, 0)
    }

    // How many bytes its record has.
    pub fn size(self) -> usize
        ensures { result ≡ 2 * length (of_clause (clause_of self.entry)) }
    {
        2 + self.part.len()
    }

    // Whether it is no fact.
    pub(crate) fn has_body(self) -> bool
        ensures { result ≡ bodied (clause_of self.entry) }
    {
        2 < self.part.len()
    }

    // The atoms of its body.
    fn atoms(self) -> Atoms<'a>
        ensures { atoms_of result ≡ map (λ (l : Lit). l.atom) (clause_of self.entry).body }
    {
        Atoms {
            rest: &self.part[2..],
        }
    }

    // Marks the atoms of its body.
    pub fn mark_body(self, all: &mut Marks)
        ensures { (q : ℕ) → marked all.new q ≡ (marked all.old q || names (clause_of self.entry) q) }
    {
        for atom in self.atoms() {
            all.mark(atom);
        }
    }

    // Whether its body has a marked atom.
    pub(crate) fn names_marked(self, all: &Marks) -> bool
        ensures { result ≡ names_marked (marked all.now) (clause_of self.entry) }
    {
        self.atoms().any(|atom| all.has(atom))
    }
}

impl<'a> Iterator for Atoms<'a> {
    ghost use Rattle.std.specs.Iterator.{YieldsFirst, item_count};
    ghost use Rattle.loops.specs.Left.{atoms_of};

    type Item = u32;

    ghost next_gives = { YieldsFirst atoms_of };

    ghost remaining = { item_count atoms_of };

    fn next(&mut self) -> Option<u32> {
        if self.rest.len() < 2 {
            return None;
        }
        let literal = fields::field_at(self.rest, 0);
        self.rest = &self.rest[2..];
        Some(literal / 2)
    }
}

// Marks the atoms in the body of one clause, lent from its head to its record's end; a last byte that stands alone is no field.
pub fn mark_body(part: &[u8], already: Marks) -> Marks
    requires { (2 ≤ length part.now) × Small (clause_in part.now) }
    ensures { (q : ℕ) → marked result q ≡ (marked already q || names (clause_in part.now) q) }
{
    let mut all = already;
    let fields = &part[..part.len() / 2 * 2];
    Record { part: fields }.mark_body(&mut all);
    all
}
