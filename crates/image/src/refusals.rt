// Why a call refuses, each with the number that the specification gives it: 1 to 9 are the image's own.

ghost use Rattle.std.specs.Prelude.{◌≡◌};
ghost use Rattle.image.specs.paper.Refusals.{number_of};

use std::error::Error;
use std::fmt;

#[derive(Clone, Copy, Debug, PartialEq, Eq)]
pub enum Refusal {
    // The image has fewer than 5 bytes.
    ShortImage = 1,
    // The version byte is not 1.
    Version = 2,
    // The length field is not the number of bytes behind it.
    Length = 3,
    // A field or a record is not all there; a record length is odd or less than 2; bytes stand behind the last constraint.
    Misfit = 4,
    // A limit is not kept.
    Limit = 5,
    // The atom of a literal, or a head, is not below A.
    NoAtom = 6,
    // A clause has an abducible as its head.
    AbducibleHead = 7,
    // An alternative is empty.
    EmptyAlternative = 8,
    // Some atom depends on itself.
    Loop = 9,
    // A list has more than 1,024 entries.
    LongList = 20,
    // The work area has fewer than 16,384 numbers.
    ShortArea = 21,
    // The budget is more than 1,000,000.
    LargeBudget = 22,
    // A member of the judged set, or the hypothesis, is not below B.
    NoAbducible = 23,
    // The budget is used up.
    UsedUp = 30,
    // The list has no room.
    NoRoom = 31,
    // No hypothesis is named.
    NoHypothesis = 40,
    // A group record is malformed.
    MalformedGroup = 41,
    // An observed atom is not a defined one of the book.
    Undefined = 42,
    // A text is malformed, or too long.
    MalformedText = 50,
    // A name stands both with and without `abd`.
    Clash = 51,
    // The room for what is to be written is too short.
    ShortRoom = 52,
}

impl Refusal {
    // Its number.
    pub fn number(self) -> u8
        ensures { result ≡ number_of self }
    {
        self as u8
    }
}

// What is wrong with an image, and at which place.
#[derive(Clone, Copy, Debug, PartialEq, Eq)]
pub struct Fault {
    pub refusal: Refusal,
    pub place: usize,
}

impl From<Fault> for Refusal {
    ghost from_gives = { λ fault refusal. refusal ≡ fault.refusal };

    fn from(fault: Fault) -> Refusal {
        fault.refusal
    }
}

impl fmt::Display for Refusal {
    fn fmt<W: fmt::Write>(&self, f: &mut fmt::Formatter<W>) -> fmt::Result {
        write!(f, "{}", self.number())
    }
}

impl fmt::Display for Fault {
    fn fmt<W: fmt::Write>(&self, f: &mut fmt::Formatter<W>) -> fmt::Result {
        write!(f, "{} at {}", self.refusal, self.place)
    }
}

impl Error for Refusal {}

impl Error for Fault {}
