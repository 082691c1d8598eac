// The values of atoms under a set of abducibles, found from the clauses of an accepted image as it is lent.

ghost use Rattle.std.specs.Prelude.{◌≡◌, ◌<◌, length};
ghost use Rattle.image.specs.Sound.{Known};
ghost use Rattle.meaning.specs.paper.Meaning as meaning;
ghost use Rattle.judging.specs.FailingLaws.{failing_at};
ghost use Rattle.judging.specs.Notes.{lit_at, lits_of};
ghost use Rattle.image.specs.Accepted.{IsBook, book_in};

use image::limits::MOST_ATOMS;
use image::{fields, front};
use sets::members::is_in;
use std::marker::Model;

// There is a note for each atom there can be.
pub const NOTES: usize = MOST_ATOMS as usize;

// The bytes of a field.
const FIELD: usize = 2;

// What judges: an accepted image, a set, and a note of each value once it is found, so that each atom is valued once.
#[derive(Drop)]
pub struct Judge<'a> {
    pub(crate) image: &'a [u8],
    set: u64,
    notes: [Option<bool>; NOTES],
}

impl<'a> Model for Judge<'a> {
    ghost use Rattle.judging.specs.Notes.{Given, Noted};

    ghost Value = { Given };

    ghost view = { λ j. record { image = j.image.now; set = j.set } };

    ghost invariant = { λ j. Noted j.image.now j.set j.notes };
}

// The literal of a field: an atom, and whether it is the atom itself or its negation.
fn literal(field: &[u8]) -> (u32, bool)
    requires { length field.now ≡ 2 }
    ensures { result ≡ lit_at field.now }
{
    let x = fields::field_at(field, 0);
    (x / 2, x % 2 == 0)
}

impl<'a> Judge<'a> {
    pub fn new(image: &'a [u8], set: u64) -> Self
        requires { IsBook image.now }
        ensures { result ≡ record { image = image.now; set = set } }
    {
        Judge {
            image,
            set,
            notes: [None; NOTES],
        }
    }

    // An atom's value: noted already; or, of an abducible, whether it is in the set; or whether it has a clause all of whose body literals
    // are true, where each body atom's value is worked out in the same way.
    fn value(&mut self, atom: u32) -> bool
        requires { atom < (book_in self.old.image).atoms }
        ensures value { result ≡ meaning.value (book_in self.old.image) self.old.set atom }
        ensures same { self.new ≡ self.old }
    {
        let slot = atom as usize;
        if let Some(value) = self.notes[slot] {
            return value;
        }
        let image = self.image;
        if atom < front::abducibles(image) {
            let member = is_in(self.set, atom);
            self.notes[slot] = Some(member);
            return member;
        }
        let counted = front::clauses(image);
        let count = fields::field_at(image, counted);
        let mut place = counted + 2;
        let met = 'found: {
            for _ in 0..count {
                let head = place + 2;
                if fields::field_at(image, head) == atom {
                    'body: {
                        let end = head + fields::field_at(image, place) as usize;
                        // The head's field, then the literals'.
                        let mut clause = image[head..end].chunks_exact(FIELD);
                        clause.next();
                        for field in clause {
                            let (p, sign) = literal(field);
                            if self.value(p) != sign {
                                break 'body;
                            }
                        }
                        break 'found true;
                    }
                }
                // The size is read anew: one kept over the calls of `value` would go over the stack at every clause.
                place = head + fields::field_at(image, place) as usize;
            }
            false
        };
        self.notes[slot] = Some(met);
        met
    }

    // The place of the first false one of these literals, where one is.
    pub fn first_false(&mut self, literals: &[u8]) -> Option<usize>
        requires { Known (book_in self.old.image) (lits_of literals.now) }
        ensures place { result ≡ failing_at (meaning.true_in (meaning.value (book_in self.old.image) self.old.set)) (lits_of literals.now) }
        ensures same { self.new ≡ self.old }
    {
        for (i, field) in literals.chunks_exact(FIELD).enumerate() {
            let (p, sign) = literal(field);
            if self.value(p) != sign {
                return Some(i);
            }
        }
        None
    }
}
