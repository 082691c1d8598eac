// The engine's calls as jobs, for the command ./wizogbare. The first argument names the job, the others are what it takes, and
// the answer is one line, whose first word says how the job ended; ` at P` stands behind refusals 1 to 9. Of clean it is a line for
// each group, and none where there is no group. All numbers are decimal. FILE is a file's name, or `-` for standard input; at most
// its first 8,752 bytes are taken, one more than the longest image has, or of a TEXT its first 32,769, one more than the longest
// text. GROUPS is a file too, of at most 262,144 bytes, and H is below 64.
//
//   check FILE                              accepted | refused R
//   judge FILE SET                          explains | goal P | constraint P | refused R
//   list FILE BUDGET ROOM                   listed K nodes N | refused R nodes N, then ` sets` and the room's entries, of which
//                                           the first K are the list, and how the work area was left
//   verdict FILE HYPOTHESIS BUDGET ROOM     unexplained | needed | possible | ruled out, ` nodes N` | refused R nodes N, then as
//                                           for list
//   admits FILE HYPOTHESIS BUDGET           admitted | excluded, ` nodes N` | refused R nodes N, then how the work area was left
//   join ROOM                               joined K | refused R, then ` sets` and the room's entries; the two lists are on
//                                           standard input, each a count of two bytes and its sets of eight, big-endian
//   image TEXT ROOM                         written N bytes, the bytes in hex, rest untouched | refused R room untouched (crate rooms)
//   names TEXT ROOM                         as for image
//   clean FILE GROUPS H...                  group G deleted | group G held and each verdict, as ` 0:needed 3:ruled-out` |
//                                           group G held refused R; G is ? where the record is malformed
//
// Where there is no answer: `unknown` for another job, `unlisted` where standard input does not have the two lists, and
// `unfit P`, `unopened P`, `unread P` and `overlong P` for argument P (crate arguments). A line that cannot be written ends the program
// with that error.
//
// A job is found by its name here; the first six are in crate jobs, then two in crate texts, and the last in crate cleanings.
#![tactic(auto)]

use arguments::NoJob;
use std::io;
use std::rt::{Env, Files};

// The longest word that names a job, and more.
const WORD: usize = 16;

// The job that the first argument names.
fn done<R: Env + Files + Input + Print>(rt: &R) -> Result<(), NoJob> {
    let mut word = [0; WORD];
    match arguments::argument(rt, 1, &mut word) {
        b"check" => jobs::check(rt),
        b"judge" => jobs::judge(rt),
        b"list" => jobs::list(rt),
        b"verdict" => jobs::verdict(rt),
        b"admits" => jobs::admits(rt),
        b"join" => jobs::join(rt),
        b"image" => texts::answered(rt, text::read),
        b"names" => texts::answered(rt, text::names),
        b"clean" => cleanings::clean(rt),
        _ => Err(NoJob::Unknown),
    }
}

fn main(rt: HostRuntime) -> io::Result<()> {
    match done(&rt) {
        Err(NoJob::Unwritten(error)) => Err(error),
        Err(reason) => println!(rt; "{reason}"),
        Ok(()) => Ok(()),
    }
}
