// Numbers written as decimal digits.
ghost use Rattle.std.specs.Prelude.{◌≤◌, length, IfOk};

use crate::{NoJob, argument};
use std::rt::Env;

// The digits of the largest number of 64 bits.
const DIGITS: usize = 20;

// The number that these digits write, if it has 64 bits.
fn written(word: &[u8]) -> Option<u64> {
    if !word.iter().all(|digit| digit.is_ascii_digit()) {
        return None;
    }
    str::from_utf8(word).ok()?.parse().ok()
}

// A set: a number of 64 bits.
pub fn take_set<R: Env>(rt: &R, place: usize) -> Result<u64, NoJob> {
    let mut buffer = [0; DIGITS];
    written(argument(rt, place, &mut buffer)).ok_or(NoJob::Unfit(place))
}

// A budget or a hypothesis: a number of 32 bits.
pub fn take_number<R: Env>(rt: &R, place: usize) -> Result<u32, NoJob> {
    let number = take_set(rt, place)?;
    u32::try_from(number).map_err(|_| NoJob::Unfit(place))
}

// A room of as many entries, or the whole buffer if it has fewer: the engine refuses both alike.
pub fn take_room<'a, T, R: Env>(
    rt: &R,
    place: usize,
    buffer: &'a mut [T],
) -> Result<&'a mut [T], NoJob>
    ensures { IfOk result (λ room. length room.now ≤ length buffer.old) }
{
    let asked = take_set(rt, place)? as usize;
    let room = asked.min(buffer.len());
    Ok(&mut buffer[..room])
}
