// The book as tables in the lent work area: what each literal, clause and constraint asks of a search. They are filled from the
// image before it, and the search does not write them.
#![tactic(auto)]

mod records;

ghost use Rattle.area.specs.Area.{Long};
ghost use Rattle.image.specs.Accepted.{IsBook};
ghost use Rattle.tables.specs.Filling.{Ready, AtomsLaid, Filled};

use area::{FAILS, JOINS_SET, LITERALS};
use image::fields::field_at;
use image::front;
use records::Further;

// No mark, and the literals of each atom: an abducible joins the set; a defined atom has no clause yet.
fn lay_atoms(image: &[u8], work: &mut [u32])
    requires { IsBook image.now × Long work.old }
    ensures { AtomsLaid image.now work.old work.new }
{
    let atoms = front::atoms(image) as usize;
    let abducibles = front::abducibles(image) as usize;
    area::wipe(work, LITERALS);
    area::ways::lay_literals(work, 0, abducibles, JOINS_SET);
    area::ways::lay_literals(work, abducibles, atoms, FAILS);
}

// The tables of clauses and constraints.
fn lay_tables(image: &[u8], work: &mut [u32])
    requires { Ready image.now work.old }
    ensures { Filled image.now work.old work.new }
{
    let clauses = front::clauses(image);
    let count = field_at(image, clauses) as usize;
    let place = records::lay_clauses(image, work, clauses + 2, count);
    area::links::link_clauses(work, count);
    let at = place.at;
    let many = field_at(image, at) as usize;
    let behind = Further {
        at: at + 2,
        way: place.way,
    };
    records::lay_constraints(image, work, behind, many);
}

// Fills the tables of the image's book.
pub fn fill(image: &[u8], work: &mut [u32])
    requires { IsBook image.now × Long work.old }
    ensures { Filled image.now work.old work.new }
{
    lay_atoms(image, work);
    lay_tables(image, work);
}
