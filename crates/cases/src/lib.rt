// The cases of the test driver: what stands in one, and the lines that answer it.
#![tactic(auto)]

pub mod input;
pub mod output;

use input::Malformed;
use std::io;

// What ends a run: a case that is not well formed, or a line that cannot be written.
#[derive(Clone, Copy, Debug)]
pub enum Stop {
    Malformed,
    Unwritten(io::Error),
}

impl From<Malformed> for Stop {
    fn from(_malformed: Malformed) -> Stop {
        Stop::Malformed
    }
}

impl From<io::Error> for Stop {
    fn from(error: io::Error) -> Stop {
        Stop::Unwritten(error)
    }
}
