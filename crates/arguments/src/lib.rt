// What a program is asked for: the words and numbers that its arguments are, and the bytes of the files that they name. Why there is no answer
// is told in these words:
//
//   unknown       there is no such job
//   unfit P       argument P is missing, or is no number of its range
//   unopened P    the file that argument P names cannot be opened; a name that is not UTF-8 is not tried
//   unread P      it cannot be read
//   overlong P    it has more bytes than its job takes
//   unlisted      standard input does not have the two lists
#![tactic(auto)]

pub mod files;
pub mod numbers;

ghost use Rattle.std.specs.Prelude.{◌≤◌, length};

use std::env::FillError;
use std::rt::Env;
use std::{fmt, io};

// Why a job has no answer: as above, or a line cannot be written.
#[derive(Clone, Copy, Debug)]
pub enum NoJob {
    Unknown,
    Unfit(usize),
    Unopened(usize),
    Unread(usize),
    Overlong(usize),
    Unlisted,
    Unwritten(io::Error),
}

impl From<io::Error> for NoJob {
    fn from(error: io::Error) -> NoJob {
        NoJob::Unwritten(error)
    }
}

impl fmt::Display for NoJob {
    fn fmt<W: fmt::Write>(&self, f: &mut fmt::Formatter<W>) -> fmt::Result {
        match self {
            NoJob::Unknown => write!(f, "unknown"),
            NoJob::Unfit(place) => write!(f, "unfit {place}"),
            NoJob::Unopened(place) => write!(f, "unopened {place}"),
            NoJob::Unread(place) => write!(f, "unread {place}"),
            NoJob::Overlong(place) => write!(f, "overlong {place}"),
            NoJob::Unlisted => write!(f, "unlisted"),
            NoJob::Unwritten(error) => write!(f, "{error}"),
        }
    }
}

// The argument, at the front of the buffer: nothing where it is missing, or longer than the buffer.
pub fn argument<'a, R: Env>(rt: &R, place: usize, buffer: &'a mut [u8]) -> &'a [u8]
    ensures { length result.now ≤ length buffer.old }
{
    let n = rt.arg(place, buffer).unwrap_or(0);
    &buffer[..n]
}

// Whether there is an argument at this place.
pub fn is_given<R: Env>(rt: &R, place: usize) -> bool {
    !matches!(rt.arg(place, &mut []), Err(FillError::NotPresent))
}
