// Marks of atoms, as many as a book may have: a bit for each, in four words.
#![tactic(auto)]

ghost use Rattle.std.specs.Prelude.{◌≡◌, false, ◌||◌, ◌↔◌, true, ℕ, ◌<◌, eqb};
ghost use Rattle.marks.specs.Marked.{markable, marked};

use sets::members;
use sets::members::SET_BITS;

const WORDS: usize = 4;

// The marks of the first atoms in the first word, of the next in the second, and so on.
#[derive(Clone, Copy, Debug, PartialEq, Eq)]
pub struct Marks {
    words: [u64; WORDS],
}

impl Marks {
    // No atom is marked.
    pub fn none() -> Marks
        ensures { (p : ℕ) → marked result p ≡ false }
    {
        Marks { words: [0; WORDS] }
    }

    // Whether an atom is marked.
    pub fn has(&self, atom: u32) -> bool
        requires { atom < markable }
        ensures { result ≡ marked self.now atom }
    {
        let which = (atom / SET_BITS) as usize;
        members::is_in(self.words[which], atom % SET_BITS)
    }

    // Marks an atom.
    pub fn mark(&mut self, atom: u32)
        requires { atom < markable }
        ensures { (p : ℕ) → marked self.new p ≡ (eqb atom p || marked self.old p) }
    {
        let which = (atom / SET_BITS) as usize;
        self.words[which] = members::with_member(self.words[which], atom % SET_BITS);
    }

    // Whether no atom is marked.
    pub fn is_none(self) -> bool
        ensures { (result ≡ true) ↔ ((p : ℕ) → marked self p ≡ false) }
    {
        self == Marks::none()
    }
}
