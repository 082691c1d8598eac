// The book's walk from its front to its end, by image/specs/paper/Decode. Where it finds the book the answer is the next place.

ghost use Rattle.std.specs.Prelude.{◌≡◌, length, MatchResult};
ghost use Rattle.image.specs.paper.Refusals.{number_of};
ghost use Rattle.image.specs.paper.Book.{Book};
ghost use Rattle.image.specs.paper.Walk.{found, fault, fine, wrong};
ghost use Rattle.image.specs.paper.Faults.{limits};
ghost use Rattle.image.specs.paper.Decode.{book, whole, wrong_front, front_place};
ghost use Rattle.faults.specs.Taking.{passed, seen};
ghost use Rattle.image.specs.paper.Front.{atoms_at};

use super::records::Records;
use faults::fields;
use image::fields::{FIELD_VALUES, field_at};
use image::front;
use image::refusals::{Fault, Refusal};

pub fn take_book(image: &[u8], at: usize) -> Result<usize, Fault>
    ensures { passed result ≡ seen (λ _. 0) (book image.now limits at) }
{
    let (atoms, next) = fields::take_atoms(image, at)?;
    let (abducibles, goal) = fields::take_abducibles(image, next, atoms)?;
    let records = Records {
        image,
        atoms,
        abducibles,
    };
    let (_, rest) = records.take_goal(goal)?;
    records.take_clauses_and_constraints(rest)
}

// The whole image from A on, left-over bytes included.
pub fn take_whole(image: &[u8]) -> Result<(), Fault>
    ensures { MatchResult result (λ _. (b : Book) × (whole image.now limits atoms_at ≡ found b (length image.now))) (λ e. whole image.now limits atoms_at ≡ fault (number_of e.refusal) e.place) }
{
    let end = take_book(image, front::ATOMS)?;
    if end != image.len() {
        return Err(Fault {
            refusal: Refusal::Misfit,
            place: end,
        });
    }
    Ok(())
}

// Where a fault of the image's front stands, by its number.
#[tactic(auto, using(std::proofs::lemmas::Bool::Decides::nat_tests), unfolding(image::specs::paper::Decode::front_place))]
pub fn front_place(image: &[u8], number: u8) -> usize
    ensures { result ≡ front_place image.now number }
{
    if number == Refusal::ShortImage.number() {
        return image.len();
    }
    if number == Refusal::Version.number() {
        return front::VERSION_AT;
    }
    front::LENGTH
}

// Version and length: the image's front, up to A.
#[tactic(auto, using(std::proofs::lemmas::Bool::Decides::nat_tests), unfolding(image::specs::paper::Decode::wrong_front, image::specs::paper::Decode::front_place, image::specs::paper::Decode::length_field))]
pub fn take_front(image: &[u8]) -> Result<(), Fault>
    ensures { MatchResult result (λ _. wrong_front image.now ≡ fine) (λ e. (wrong_front image.now ≡ wrong (number_of e.refusal)) × (e.place ≡ front_place image.now (number_of e.refusal))) }
{
    let n = image.len();
    if n < front::ATOMS {
        return Err(Fault {
            refusal: Refusal::ShortImage,
            place: n,
        });
    }
    if image[front::VERSION_AT] != front::VERSION {
        return Err(Fault {
            refusal: Refusal::Version,
            place: front::VERSION_AT,
        });
    }
    let high = field_at(image, front::LENGTH);
    let low = field_at(image, front::LENGTH_LOW);
    if FIELD_VALUES * high as usize + low as usize != n - front::ATOMS {
        return Err(Fault {
            refusal: Refusal::Length,
            place: front::LENGTH,
        });
    }
    Ok(())
}
