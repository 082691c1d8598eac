// The lines of the answers, printed.
use crate::input::NUMBER;
use area::END;
use std::io;

// ` sets` and the entries.
pub fn entries<R: Print>(rt: &R, list: &[u64]) -> io::Result<()> {
    print!(rt; " sets")?;
    for set in list {
        print!(rt; " {set}")?;
    }
    Ok(())
}

fn are(work: &[u32], number: u32) -> bool {
    work.iter().all(|n| *n == number)
}

fn is_clean(work: &[u32]) -> bool {
    match work.split_at_checked(END) {
        Some((used, rest)) => are(used, 0) && are(rest, NUMBER),
        None => false,
    }
}

// How the work area was left.
pub fn state(work: &[u32]) -> &'static str {
    if are(work, NUMBER) {
        "untouched"
    } else if is_clean(work) {
        "clean"
    } else {
        "other"
    }
}

// What a search leaves behind, and the line ends.
pub fn left<R: Print>(rt: &R, sets: &[u64], work: &[u32]) -> io::Result<()> {
    entries(rt, sets)?;
    println!(rt; " work {}", state(work))
}
