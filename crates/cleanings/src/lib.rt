// The job on groups, for the program desk, whose head has what it takes and answers: a book, a file of groups and the hypotheses to keep
// safe are taken, and a line is written for each group (paper 02, A4.10).
#![tactic(auto)]

ghost use Rattle.std.specs.Prelude.{◌≤◌, ◌<◌, ◌≡◌, length, IfOk};
ghost use Rattle.std.specs.Iterator.{at_most};
ghost use Rattle.sets.specs.SetLaws.{set_bits};
ghost use Rattle.cleanings.specs.Buffers.{groups_bytes};

use area::END;
use arguments::{NoJob, files, is_given, numbers};
use groups::Group;
use image::fields::field_at;
use sets::members::{SET_BITS, with_member};
use std::io;
use std::rt::{Env, Files};

// The places of what the job takes: argument 1 is the job itself.
const BOOK: usize = 2;

const GROUPS: usize = 3;

const HYPOTHESES: usize = 4;

const BUDGET: u32 = 100_000;

const ROOM: usize = 256;

// The most bytes that a file of groups has, and one more, so that a longer one is told.
const MOST_BYTES: usize = 262_144;

const BYTES: usize = MOST_BYTES + 1;

// A record's length field behind its version, and where the bytes begin that it counts.
const SIZE: usize = 1;

const COUNTED: usize = SIZE + 2;

fn groups_buffer() -> [u8; BYTES]
    ensures { groups_bytes ≡ length result }
{
    [0; BYTES]
}

// How long the first record is: by its own length field, or all bytes where they are too few for that.
fn record_len(groups: &[u8]) -> usize
    requires { 0 < length groups.now }
    ensures { (0 < result) × (result ≤ length groups.now) }
{
    if groups.len() < COUNTED {
        return groups.len();
    }
    let size = COUNTED + field_at(groups, SIZE) as usize;
    size.min(groups.len())
}

// The records of a file of groups, one behind the other.
#[derive(Drop)]
struct Records<'a>(&'a [u8]);

impl<'a> Iterator for Records<'a> {
    type Item = &'a [u8];

    ghost remaining = { λ records. at_most (length records.0.now) };

    fn next(&mut self) -> Option<&'a [u8]> {
        if self.0.is_empty() {
            return None;
        }
        let (record, rest) = self.0.split_at(record_len(self.0));
        self.0 = rest;
        Some(record)
    }
}

// The group's number, which a malformed record does not have.
fn number<R: Print>(rt: &R, group: &[u8]) -> io::Result<()> {
    match Group::read(group) {
        Some(group) => print!(rt; "group {}", group.number()),
        None => print!(rt; "group ?"),
    }
}

fn line<R: Print>(
    rt: &R,
    book: &[u8],
    group: &[u8],
    hypotheses: u64,
    sets: &mut [u64],
    work: &mut [u32],
) -> io::Result<()> {
    let answer = cleaner::clean(book, group, hypotheses, BUDGET, sets, work);
    number(rt, group)?;
    print!(rt; " ")?;
    verdicts::tell(rt, answer, "held refused")?;
    println!(rt)
}

// A line for each record. List and work area are lent again and again: no group's answer depends on what another left there.
fn lines<R: Print>(rt: &R, book: &[u8], groups: &[u8], hypotheses: u64) -> io::Result<()> {
    let mut sets = [0; ROOM];
    let mut work = [0; END];
    for group in Records(groups) {
        line(rt, book, group, hypotheses, &mut sets, &mut work)?;
    }
    Ok(())
}

// A hypothesis: a number that a set has room for.
fn take_hypothesis<R: Env>(rt: &R, place: usize) -> Result<u32, NoJob>
    ensures { IfOk result (λ h. h < set_bits) }
{
    let h = numbers::take_number(rt, place)?;
    if SET_BITS <= h {
        return Err(NoJob::Unfit(place));
    }
    Ok(h)
}

// All arguments from the first hypothesis on, which must be there, as a set.
fn take_hypotheses<R: Env>(rt: &R) -> Result<u64, NoJob> {
    let mut set = 0;
    for place in HYPOTHESES..usize::MAX {
        set = with_member(set, take_hypothesis(rt, place)?);
        if !is_given(rt, place + 1) {
            break;
        }
    }
    Ok(set)
}

// The file of groups. Standard input that has given the book gives nothing more.
fn take_groups<'a, R: Env + Files + Input>(rt: &R, groups: &'a mut [u8]) -> Result<&'a [u8], NoJob>
    ensures { IfOk result (λ found. length found.now < length groups.old) }
{
    if files::is_input(rt, BOOK) && files::is_input(rt, GROUPS) {
        return Err(NoJob::Unread(GROUPS));
    }
    files::take_whole(rt, GROUPS, groups)
}

pub fn clean<R: Env + Files + Input + Print>(rt: &R) -> Result<(), NoJob> {
    let mut book = files::image_buffer();
    let mut groups = groups_buffer();
    let book = files::take_file(rt, BOOK, &mut book)?;
    let groups = take_groups(rt, &mut groups)?;
    let hypotheses = take_hypotheses(rt)?;
    lines(rt, book, groups, hypotheses)?;
    Ok(())
}
