// The image of the book with a group's facts: the book's own bytes, with another length and another clause count, and the facts'
// records behind the last clause's. Each byte is written once, from the front on.

ghost use Rattle.std.specs.Prelude.{◌≤◌, ◌+◌, ◌*◌, length};
ghost use Rattle.image.specs.paper.Front.{version_at, atoms_at};
ghost use Rattle.groups.specs.paper.Group.{observed};
ghost use Rattle.groups.specs.Pieces.{front_bytes, fact_bytes, fact_length};
ghost use Rattle.groups.specs.Wrote.{WroteBytes};
ghost use Rattle.groups.specs.Writes.{Writable, WroteGroup};

use super::Group;
use image::fields::{FIELD_VALUES, field_at};
use image::front;
use image::write::put_field;

// A fact's record: its length, which is that of a head, and the head.
const FACT_SIZE: usize = 2;

const FACT_BYTES: usize = 2 + FACT_SIZE;

// Copies the bytes to the place; the place behind them.
fn copy(bytes: &[u8], image: &mut [u8], at: usize) -> usize
    requires { at + length bytes.now ≤ length image.old }
    ensures { WroteBytes bytes.now image.old at image.new result }
{
    let end = at + bytes.len();
    image[at..end].copy_from_slice(bytes);
    end
}

// The record of a fact for each atom that was observed; the place behind them.
fn write_facts(group: Group, image: &mut [u8], at: usize) -> usize
    requires { at + fact_length * length (observed group.bytes.now) ≤ length image.old }
    ensures { WroteBytes (fact_bytes (observed group.entry.bytes.now)) image.old at image.new result }
{
    let mut end = at;
    for i in 0..group.count() {
        put_field(image, end, FACT_SIZE);
        put_field(image, end + 2, group.atom(i) as usize);
        end += FACT_BYTES;
    }
    end
}

// The front: version, and the length of the rest.
fn write_front(image: &mut [u8], size: usize)
    requires { atoms_at ≤ length image.old }
    ensures { WroteBytes (front_bytes size) image.old version_at image.new atoms_at }
{
    image[front::VERSION_AT] = front::VERSION;
    put_field(image, front::LENGTH, size / FIELD_VALUES);
    put_field(image, front::LENGTH_LOW, size % FIELD_VALUES);
}

// The whole image; how many bytes it has.
#[tactic(auto, using(crate::proofs::Writes::in_order))]
pub fn write(book: &[u8], group: Group, image: &mut [u8]) -> usize
    requires { Writable book.now group.bytes.now image.old }
    ensures { WroteGroup book.now group.entry.bytes.now image.old image.new result }
{
    let facts = group.count();
    let clauses = front::clauses(book);
    let constraints = front::constraints(book);
    let bytes = book.len() + FACT_BYTES * facts;
    write_front(image, bytes - front::ATOMS);
    let counted = copy(&book[front::ATOMS..clauses], image, front::ATOMS);
    put_field(image, counted, field_at(book, clauses) as usize + facts);
    let told = copy(&book[clauses + 2..constraints], image, counted + 2);
    let added = write_facts(group, image, told);
    copy(&book[constraints..], image, added)
}
