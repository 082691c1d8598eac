// The image's records, clauses and constraints, as tables.
ghost use Rattle.tables.specs.Constraints.{ConstraintDue, ConstraintLaid, ConstraintsDue, ConstraintsLaid};
ghost use Rattle.tables.specs.Clauses.{ClauseDue, ClauseLaid, ClausesDue, ClausesLaid};

use area::{CLAUSE_RECORDS, NO_LINK, NO_TASK, RECORD_WIDTH, WAY_WIDTH, WAYS, links, ways};
use image::fields::field_at;

// Where the image's records and the ways go on.
#[derive(Clone, Copy, Debug, PartialEq, Eq)]
pub struct Further {
    pub at: usize,
    pub way: usize,
}

// Clause c: its way, with its head for now, and its record.
fn lay_clause(image: &[u8], work: &mut [u32], c: usize, place: Further) -> Further
    requires { ClauseDue image.now work.old c place.at place.way }
    ensures { ClauseLaid image.now work.old c work.new result.at result.way }
{
    let at = place.at;
    let first = place.way;
    let n = field_at(image, at) as usize / 2 - 1;
    let way = WAYS + WAY_WIDTH * c;
    work[way] = ways::list_of(image, at + 4, n);
    work[way + 1] = field_at(image, at + 2);
    let link = ways::lay_opposites(image, work, first, at + 4, n, NO_LINK);
    work[CLAUSE_RECORDS + RECORD_WIDTH * c] = link;
    Further {
        at: at + 4 + 2 * n,
        way: first + WAY_WIDTH * n,
    }
}

pub fn lay_clauses(image: &[u8], work: &mut [u32], start: usize, count: usize) -> Further
    requires { ClausesDue image.now work.old start count }
    ensures { ClausesLaid image.now work.old work.new count result.at result.way }
{
    let mut place = Further {
        at: start,
        way: WAYS + WAY_WIDTH * count,
    };
    for c in 0..count {
        place = lay_clause(image, work, c, place);
    }
    place
}

// Constraint k.
fn lay_constraint(image: &[u8], work: &mut [u32], k: usize, place: Further) -> Further
    requires { ConstraintDue image.now work.old k place.at place.way }
    ensures { ConstraintLaid image.now work.old k place.way work.new result.at result.way }
{
    let at = place.at;
    let first = place.way;
    let end = at + 2 + field_at(image, at) as usize;
    let n = field_at(image, at + 2) as usize;
    let alternatives = at + 4 + 2 * n;
    let middle = first + WAY_WIDTH * n;
    let way = ways::lay_alternatives(image, work, middle, alternatives, end);
    let next = ways::link_to(middle, alternatives, end);
    let link = ways::lay_opposites(image, work, first, at + 4, n, next);
    links::lay_record(work, k, link);
    Further { at: end, way }
}

pub fn lay_constraints(image: &[u8], work: &mut [u32], start: Further, many: usize)
    requires { ConstraintsDue image.now work.old start.at start.way many }
    ensures { ConstraintsLaid image.now work.old start.way work.new }
{
    let mut place = start;
    for k in 0..many {
        place = lay_constraint(image, work, k, place);
    }
    links::lay_record(work, many, NO_TASK);
}
