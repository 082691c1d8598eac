// The printing program of paper 01, 9: lists the smallest explanations of the book whose image stands on standard input. It takes 8,752
// bytes of that at most, one more than the longest image has. Input that cannot be read and a line that cannot be written end it with that
// error.
#![tactic(auto)]

ghost use Rattle.std.specs.Prelude.{◌≡◌, length};
ghost use Rattle.listing.specs.Buffers.{input_bytes, room};
ghost use Rattle.area.specs.paper.Work.{work_numbers};

use area::END;
use cases::input;
use engine::NoAnswer;
use image::limits::{LONGEST_IMAGE, MOST_ABDUCIBLES};
use sets::members::is_in;
use std::io;

const BUDGET: u32 = 100_000;

const ROOM: usize = 256;

const INPUT: usize = LONGEST_IMAGE + 1;

fn image_buffer() -> [u8; INPUT]
    ensures { input_bytes ≡ length result }
{
    [0; INPUT]
}

fn list_buffer() -> [u64; ROOM]
    ensures { room ≡ length result }
{
    [0; ROOM]
}

fn work_area() -> [u32; END]
    ensures { work_numbers ≡ length result }
{
    [0; END]
}

// A space before each abducible of the set, ascending.
fn members<R: Print>(rt: &R, set: u64) -> io::Result<()> {
    for j in 0..MOST_ABDUCIBLES {
        if is_in(set, j) {
            print!(rt; " {j}")?;
        }
    }
    Ok(())
}

fn set_line<R: Print>(rt: &R, place: usize, set: u64) -> io::Result<()> {
    print!(rt; "{place}:")?;
    if set == 0 {
        print!(rt; " none")?;
    } else {
        members(rt, set)?;
    }
    println!(rt)
}

// A line for each of the first `count` sets.
fn lines<R: Print>(rt: &R, sets: &[u64], count: usize) -> io::Result<()> {
    for (i, set) in sets.iter().take(count).enumerate() {
        set_line(rt, i + 1, *set)?;
    }
    Ok(())
}

fn show<R: Print>(rt: &R, image: &[u8], sets: &mut [u64], work: &mut [u32]) -> io::Result<()> {
    match engine::list(image, BUDGET, sets, work) {
        Ok(listed) => {
            println!(rt; "sets {} nodes {}", listed.count, listed.nodes)?;
            lines(rt, sets, listed.count as usize)
        }
        Err(NoAnswer::Broken(fault)) => {
            println!(rt; "refused {} nodes 0 at {}", fault.refusal, fault.place)
        }
        Err(NoAnswer::Refused(refusal, nodes)) => println!(rt; "refused {refusal} nodes {nodes}"),
    }
}

fn main(rt: HostRuntime) -> io::Result<()> {
    let mut image = image_buffer();
    let mut sets = list_buffer();
    let mut work = work_area();
    let image = input::take_all(&mut rt.stdin(), &mut image)?;
    show(&rt, image, &mut sets, &mut work)
}
