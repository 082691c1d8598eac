// A test driver over the engine. It reads cases from standard input until that ends, and writes a line for each. A case is
// an operation byte and what that operation takes; all numbers are big-endian, and an image is its length in four bytes and
// then its bytes, at most 16,384. Before each call every list entry is 7 and every work number 9 (input). Anything malformed ends the run with the line
// `bad case`; input that cannot be read counts as ended. Behind refusals 1 to 9 of an image ` at P` says where it is at fault, but for 7.
// A line that cannot be written ends the run with that error.
//
//   1 read    image                                             accepted | refused R
//   2 judge   image, set (eight bytes)                          explains | goal P | constraint P | refused R
//   3 list    image, budget (four bytes), room (two), work length (four; at most 20,000)
//                                                               listed K nodes N | refused R nodes N, then ` sets` and the room's
//                                                               entries, then ` work clean`, ` work untouched` or ` work other`
//   4 verdict image, hypothesis (four), budget, room, work length
//                                                               unexplained | needed | possible | ruled out, ` nodes N` |
//                                                               refused R nodes N, then as for 3
//   5 join    two counts with their sets, room (two bytes)      joined K | refused R, then ` sets` and the room's entries
//   6 text    text (length in four bytes, at most 40,000; bytes), room (four bytes, at most 10,000)
//                                                               written N bytes HEX rest untouched | rest other;
//                                                               refused R room untouched | room other (crate rooms)
//   7 clean   image, group record (length in two bytes, at most 1,000; bytes), hypotheses (eight bytes), budget, room, work length
//                                                               deleted | held and each verdict, as ` 0:needed 3:ruled-out` |
//                                                               refused R, then as for 3 (crate verdicts)
//  12 names   as for 6                                          as for 6
//  13 admits  image, hypothesis (four), budget (four), work length (four)
//                                                               admitted nodes N | excluded nodes N | refused R nodes N, then
//                                                               ` work ..` as for 3
//
// What an operation does is in crate operations for 1 to 5 and 13, in crate rooms for 6 and 12, and in crate verdicts for 7.
#![tactic(auto)]

use cases::{Stop, input};
use std::io;
use std::io::Read;

// The case of this operation is taken, and its line written.
fn answered<R: Print, I: Read>(rt: &R, input: &mut I, operation: u8) -> Result<(), Stop> {
    match operation {
        1 => operations::read_case(rt, input),
        2 => operations::judge_case(rt, input),
        3 => operations::list_case(rt, input),
        4 => operations::verdict_case(rt, input),
        5 => operations::join_case(rt, input),
        6 => rooms::case(rt, input, text::read),
        7 => verdicts::clean_case(rt, input),
        12 => rooms::case(rt, input, text::names),
        13 => operations::admits_case(rt, input),
        _ => Err(Stop::Malformed),
    }
}

// A run ends after so many cases at the latest: a program has an end.
const MOST_CASES: u32 = 1_000_000_000;

fn run<R: Print, I: Read>(rt: &R, input: &mut I) -> Result<(), Stop> {
    for _ in 0..MOST_CASES {
        let Ok(operation) = input::take_u8(input) else {
            return Ok(());
        };
        answered(rt, input, operation)?;
    }
    Ok(())
}

fn main(rt: HostRuntime) -> io::Result<()> {
    match run(&rt, &mut rt.stdin()) {
        Err(Stop::Malformed) => println!(rt; "bad case"),
        Err(Stop::Unwritten(error)) => Err(error),
        Ok(()) => Ok(()),
    }
}
