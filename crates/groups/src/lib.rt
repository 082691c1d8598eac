// The group record of paper 02, A4.2, as lent, and what the book says of the atoms that were observed.
#![tactic(auto)]

pub mod writing;

ghost use Rattle.std.specs.Prelude.{◌≡◌, true, false, ◌+◌, ◌≤◌, ◌<◌, leb, length, get_or, MatchOption};
ghost use Rattle.base.specs.paper.Lists.{all};
ghost use Rattle.image.specs.paper.Walk.{field_at, field_values};
ghost use Rattle.image.specs.paper.Faults.{limits};
ghost use Rattle.image.specs.Accepted.{IsBook, book_in};
ghost use Rattle.groups.specs.paper.Group.{number_at, most_observed, well_formed, observed, is_defined};

use image::fields::field_at;
use image::front;
use image::limits::MOST_CLAUSES;

// The version, which stands first; and where the numbers begin: how many bytes follow, the group's number, the atoms.
const VERSION: u8 = 1;

const SIZE: usize = 1;

const NUMBER: usize = SIZE + 2;

const OBSERVED: usize = NUMBER + 2;

const MOST_OBSERVED: usize = 32;

const MOST_SIZE: usize = 2 + 2 * MOST_OBSERVED;

// A record that is well formed.
#[derive(Clone, Copy)]
pub struct Group<'a> {
    bytes: &'a [u8],
    ghost formed: { well_formed bytes.now ≡ true },
}

// Whether the record is one.
pub fn is_well_formed(bytes: &[u8]) -> bool
    ensures { result ≡ well_formed bytes.now }
{
    if bytes.len() < NUMBER {
        return false;
    }
    let size = field_at(bytes, SIZE) as usize;
    bytes[0] == VERSION
        && size == bytes.len() - NUMBER
        && size % 2 == 0
        && (2..=MOST_SIZE).contains(&size)
}

impl<'a> Group<'a> {
    // The record as a group, where it is well formed.
    pub fn read(bytes: &'a [u8]) -> Option<Group<'a>>
        ensures { MatchOption result (well_formed bytes.now ≡ false) (λ group. group.bytes.now ≡ bytes.now) }
    {
        if is_well_formed(bytes) {
            Some(Group { bytes })
        } else {
            None
        }
    }

    // Its number.
    pub fn number(self) -> u32
        ensures { (result ≡ field_at self.entry.bytes.now number_at) × (result < field_values) }
    {
        field_at(self.bytes, NUMBER)
    }

    // How many atoms were observed.
    pub fn count(self) -> usize
        ensures { (result ≡ length (observed self.entry.bytes.now)) × (result ≤ most_observed) }
    {
        (field_at(self.bytes, SIZE) as usize - 2) / 2
    }

    // The i-th of them.
    fn atom(self, i: usize) -> u32
        requires { i < length (observed self.bytes.now) }
        ensures { (result ≡ get_or (observed self.entry.bytes.now) i 0) × (result < field_values) }
    {
        field_at(self.bytes, OBSERVED + 2 * i)
    }

    // Whether each of them is a defined atom of the book.
    pub fn all_defined(self, book: &[u8]) -> bool
        requires { IsBook book.now }
        ensures { result ≡ all (is_defined (book_in book.now)) (observed self.entry.bytes.now) }
    {
        let defined = front::abducibles(book)..front::atoms(book);
        (0..self.count()).all(|i| defined.contains(&self.atom(i)))
    }

    // Whether the book's clauses and the facts together keep the limit.
    pub fn fits(self, book: &[u8]) -> bool
        requires { IsBook book.now }
        ensures { result ≡ leb (length (book_in book.now).clauses + length (observed self.entry.bytes.now)) limits.clauses }
    {
        let clauses = field_at(book, front::clauses(book)) as usize;
        clauses + self.count() <= MOST_CLAUSES as usize
    }
}
