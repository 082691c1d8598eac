// A document to be written, and its image.

ghost use Rattle.std.specs.Prelude.{◌+◌, ◌*◌, ◌≤◌, length};
ghost use Rattle.image.specs.paper.Front.{atoms_at};
ghost use Rattle.writer.specs.Fields.{number_in, fields_by, image_by, AtFront};
ghost use Rattle.writer.specs.Wrote.{Wrote};
ghost use Rattle.writer.specs.Due.{Statements};

use super::literals::write_counted;
use super::statements::Kind;
use image::fields::FIELD_VALUES;
use image::front::{ABDUCIBLES, ATOMS, GOALS, LENGTH, LENGTH_LOW, VERSION, VERSION_AT};
use image::write::put_field;

// The words as codes, the place of the goal line among them, the numbers of the names, and how many atoms and abducibles these are.
#[derive(Clone, Copy, Debug)]
pub struct Document<'a> {
    pub codes: &'a [u16],
    pub goal: usize,
    pub numbers: &'a [u16],
    pub atoms: usize,
    pub abducibles: usize,
    pub ghost due: { Statements codes.now goal numbers.now },
}

impl<'a> Document<'a> {
    // The fields, from A on; the place behind them.
    fn write_fields(&self, image: &mut [u8]) -> usize
        requires { atoms_at + 2 * length (fields_by (number_in self.now.numbers.now) self.now.codes.now self.now.goal self.now.atoms self.now.abducibles) ≤ length image.old }
        ensures { Wrote (fields_by (number_in self.now.numbers.now) self.now.codes.now self.now.goal self.now.atoms self.now.abducibles) image.old atoms_at image.new result }
    {
        put_field(image, ATOMS, self.atoms);
        put_field(image, ABDUCIBLES, self.abducibles);
        let goal_line = &self.codes[self.goal + 1..];
        let clauses = write_counted(goal_line, self.numbers, image, GOALS);
        let constraints = self.write_statements(Kind::Clause, image, clauses);
        self.write_statements(Kind::Constraint, image, constraints)
    }

    // Writes the image at the front of `image`; answers its length.
    pub fn write_image(&self, image: &mut [u8]) -> usize
        requires { length (image_by self.now.codes.now self.now.goal self.now.numbers.now self.now.atoms self.now.abducibles) ≤ length image.old }
        ensures { AtFront (image_by self.now.codes.now self.now.goal self.now.numbers.now self.now.atoms self.now.abducibles) image.old image.new result }
    {
        let end = self.write_fields(image);
        let size = end - ATOMS;
        put_field(image, LENGTH_LOW, size % FIELD_VALUES);
        put_field(image, LENGTH, size / FIELD_VALUES);
        image[VERSION_AT] = VERSION;
        end
    }
}
