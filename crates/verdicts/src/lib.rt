// What the cleaner says of a group, for the programs: its answer in words, and the case of the test driver.
//
//   deleted | held, and for each hypothesis, ascending, a space, its number, a colon and its verdict | refused R
#![tactic(auto)]

use cases::{Stop, input, output};
use cleaner::{Cleaning, Sorted};
use image::refusals::Refusal;
use sets::members::{SET_BITS, is_in};
use std::io;
use std::io::Read;

fn held<R: Print>(rt: &R, sorted: &Sorted) -> io::Result<()> {
    let verdicts = [
        (sorted.unexplained, "unexplained"),
        (sorted.needed, "needed"),
        (sorted.possible, "possible"),
        (sorted.excluded, "ruled-out"),
    ];
    let named = sorted.unexplained | sorted.needed | sorted.possible | sorted.excluded;
    print!(rt; "held")?;
    for h in 0..SET_BITS {
        if named >> h == 0 {
            break;
        }
        if is_in(named, h) {
            for (those, word) in verdicts {
                if is_in(those, h) {
                    print!(rt; " {h}:{word}")?;
                }
            }
        }
    }
    Ok(())
}

// The answer, with these words before a refusal's number; the line goes on.
pub fn tell<R: Print>(rt: &R, answer: Result<Cleaning, Refusal>, refused: &str) -> io::Result<()> {
    match answer {
        Ok(Cleaning::Deleted) => print!(rt; "deleted"),
        Ok(Cleaning::Held(sorted)) => held(rt, &sorted),
        Err(refusal) => print!(rt; "{refused} {refusal}"),
    }
}

// Operation 7: a case is taken, and its line written.
pub fn clean_case<R: Print, I: Read>(rt: &R, input: &mut I) -> Result<(), Stop> {
    let mut image = input::image_buffer();
    let mut group = input::group_buffer();
    let mut sets = input::list_buffer();
    let mut work = input::work_buffer();
    let image = input::take_image(input, &mut image)?;
    let group = input::take_group(input, &mut group)?;
    let hypotheses = input::take_u64(input)?;
    let budget = input::take_u32(input)?;
    let sets = input::take_room(input, &mut sets)?;
    let work = input::take_area(input, &mut work)?;
    let answer = cleaner::clean(image, group, hypotheses, budget, sets, work);
    tell(rt, answer, "refused")?;
    output::left(rt, sets, work)?;
    Ok(())
}
