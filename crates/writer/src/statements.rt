// The clauses, and the constraints: records with their count.

ghost use Rattle.std.specs.Prelude.{◌≡◌, ◌+◌, ◌*◌, ◌≤◌, ◌<◌, length, take};
ghost use Rattle.std.proofs.Math.Seq.{slice};
ghost use Rattle.image.specs.paper.Spell.{of_record};
ghost use Rattle.writer.specs.Fields.{number_in, is_end, ways_of, inside_of, starts as starts_with, parts_of, statements_of};
ghost use Rattle.writer.specs.Wrote.{Wrote};
ghost use Rattle.writer.specs.Due.{Statements, stop_of, parts_from};
ghost use Rattle.writer.specs.Kinds.{first_end};

use super::document::Document;
use super::literals::{HEAD, write_counted, write_names, write_way};
use image::write::put_field;
use spelling::{ARROW, DOT, SEMICOLON};

#[derive(Clone, Copy, Debug, PartialEq, Eq)]
pub enum Kind {
    Clause,
    Constraint,
}

impl Kind {
    // The end of the first part of a record of this kind.
    fn first_end(self) -> u16
        ensures { result ≡ first_end self }
    {
        match self {
            Kind::Clause => DOT,
            Kind::Constraint => ARROW,
        }
    }
}

// Whether a part ends here.
#[tactic(auto, unfolding(crate::specs::Fields::is_end))]
fn is_end(code: u16) -> bool
    ensures { result ≡ is_end code }
{
    (SEMICOLON..=ARROW).contains(&code)
}

// Whether a record whose first part ends so starts with a part, by the code before it and the one at its end.
#[tactic(auto, unfolding(crate::specs::Fields::starts))]
fn starts(kind: u16, last: u16, end: u16) -> bool
    ensures { result ≡ starts_with kind last end }
{
    last == DOT && end == kind
}

// The records whose first part ends with this code, with their count.
pub fn write_statements(
    codes: &[u16],
    goal: usize,
    numbers: &[u16],
    kind: u16,
    image: &mut [u8],
    at: usize,
) -> usize
    requires { Statements codes.now goal numbers.now × (at + 2 * length (statements_of (number_in numbers.now) kind (parts_of (take goal codes.now))) ≤ length image.old) }
    ensures { Wrote (statements_of (number_in numbers.now) kind (parts_of (take goal codes.now))) image.old at image.new result }
{
    let document = Document {
        codes,
        goal,
        numbers,
        atoms: 0,
        abducibles: 0,
    };
    document.write_records(kind, image, at)
}

impl<'a> Document<'a> {
    // Where the part from `from` on ends, or the goal line.
    fn part_end(&self, from: usize) -> usize
        requires { from ≤ self.now.goal }
        ensures { result ≡ stop_of self.now.codes.now from self.now.goal }
    {
        for i in from..self.goal {
            if is_end(self.codes[i]) {
                return i;
            }
        }
        self.goal
    }

    // The alternatives from `from` on.
    fn write_ways(&self, from: usize, image: &mut [u8], at: usize) -> usize
        requires { (from ≤ self.now.goal) × (at + 2 * length (ways_of (number_in self.now.numbers.now) (parts_from self.now.codes.now from self.now.goal)) ≤ length image.old) }
        ensures { Wrote (ways_of (number_in self.now.numbers.now) (parts_from self.now.codes.now from self.now.goal)) image.old at image.new result }
    {
        let mut i = from;
        let mut end = at;
        while i < self.goal {
            let stop = self.part_end(i);
            end = write_way(&self.codes[i..stop], self.numbers, image, end);
            if self.codes[stop] == DOT {
                return end;
            }
            i = stop + 1;
        }
        end
    }

    // The inside of a record whose first part goes from `from` to `to`.
    fn write_inside(&self, kind: u16, from: usize, to: usize, image: &mut [u8], at: usize) -> usize
        requires { (from ≤ to) × (to < self.now.goal) × (at + 2 * length (inside_of (number_in self.now.numbers.now) kind (slice from to self.now.codes.now) (parts_from self.now.codes.now (to + 1) self.now.goal)) ≤ length image.old) }
        ensures { Wrote (inside_of (number_in self.now.numbers.now) kind (slice from to self.now.codes.now) (parts_from self.now.codes.now (to + 1) self.now.goal)) image.old at image.new result }
    {
        let first = &self.codes[from..to];
        if kind == DOT {
            return write_names(first, self.numbers, HEAD, image, at);
        }
        let ways = write_counted(first, self.numbers, image, at);
        self.write_ways(to + 1, image, ways)
    }

    fn write_record(&self, kind: u16, from: usize, to: usize, image: &mut [u8], at: usize) -> usize
        requires { (from ≤ to) × (to < self.now.goal) × (at + 2 * length (of_record (inside_of (number_in self.now.numbers.now) kind (slice from to self.now.codes.now) (parts_from self.now.codes.now (to + 1) self.now.goal))) ≤ length image.old) }
        ensures { Wrote (of_record (inside_of (number_in self.now.numbers.now) kind (slice from to self.now.codes.now) (parts_from self.now.codes.now (to + 1) self.now.goal))) image.old at image.new result }
    {
        let first = at + 2;
        let end = self.write_inside(kind, from, to, image, first);
        put_field(image, at, end - first);
        end
    }

    // The records whose first part ends with this code, with their count.
    fn write_records(&self, kind: u16, image: &mut [u8], at: usize) -> usize
        requires { at + 2 * length (statements_of (number_in self.now.numbers.now) kind (parts_of (take self.now.goal self.now.codes.now))) ≤ length image.old }
        ensures { Wrote (statements_of (number_in self.now.numbers.now) kind (parts_of (take self.now.goal self.now.codes.now))) image.old at image.new result }
    {
        let mut i = 0;
        let mut last = DOT;
        let mut count = 0;
        let mut end = at + 2;
        while i < self.goal {
            let from = i;
            let before = last;
            let stop = self.part_end(from);
            i = stop + 1;
            last = self.codes[stop];
            if !starts(kind, before, last) {
                continue;
            }
            end = self.write_record(kind, from, stop, image, end);
            count += 1;
        }
        put_field(image, at, count);
        end
    }

    // The records of one kind, with their count.
    pub fn write_statements(&self, kind: Kind, image: &mut [u8], at: usize) -> usize
        requires { at + 2 * length (statements_of (number_in self.now.numbers.now) (first_end kind) (parts_of (take self.now.goal self.now.codes.now))) ≤ length image.old }
        ensures { Wrote (statements_of (number_in self.now.numbers.now) (first_end kind) (parts_of (take self.now.goal self.now.codes.now))) image.old at image.new result }
    {
        self.write_records(kind.first_end(), image, at)
    }
}
