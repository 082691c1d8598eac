// The links of the clauses by head, and the records and the cells of the constraints.
ghost use Rattle.std.specs.Prelude.{◌≡◌, ◌≤◌};
ghost use Rattle.image.specs.paper.Faults.{limits};
ghost use Rattle.area.specs.Area.{wanted_true, Long};
ghost use Rattle.area.specs.Links.{head_in, shut as shut_of, linking, LinkDue, Unlinked, Linked};
ghost use Rattle.area.specs.Cells.{RecordLaid};

use super::{
    CELL_WIDTH, CELLS, CLAUSE_RECORDS, CONSTRAINT_RECORDS, JOINS, LITERALS, NO_END, NO_LINK,
    RECORD_WIDTH, WAY_WIDTH, WAYS,
};

// A record's link, of what wanting an atom's opposite does: none, where that joins, as it does with no record.
fn shut(link: u32) -> u32
    ensures { result ≡ shut_of link }
{
    if link == JOINS { NO_LINK } else { link }
}

// Links the way and the record of clause c to those that its head leads to, and its head to them.
fn link_clause(work: &mut [u32], c: usize)
    requires { LinkDue work.old c }
    ensures { work.new ≡ linking work.old c (wanted_true (head_in work.old c)) }
{
    let way = WAYS + WAY_WIDTH * c;
    let record = CLAUSE_RECORDS + RECORD_WIDTH * c;
    let head = LITERALS + 2 * work[way + 1] as usize;
    let next_way = work[head];
    let next_record = work[head + 1];
    work[way + 1] = next_way;
    work[record + 1] = shut(next_record);
    work[head] = way as u32;
    work[head + 1] = record as u32;
}

// Links all clauses, from the last up: each atom then leads to the first with its head, and each to the next.
pub fn link_clauses(work: &mut [u32], count: usize)
    requires { Unlinked work.old count }
    ensures { Linked work.old count work.new 0 }
{
    for c in (0..count).rev() {
        link_clause(work, c);
    }
}

// The cell of the constraints from k on, and the record of k.
pub fn lay_record(work: &mut [u32], k: usize, number: u32)
    requires { (k ≤ limits.constraints) × Long work.old }
    ensures { RecordLaid work.old k number work.new }
{
    let record = CONSTRAINT_RECORDS + RECORD_WIDTH * k;
    let cell = CELLS + CELL_WIDTH * k;
    work[cell] = record as u32;
    work[cell + 1] = NO_END as u32;
    work[cell + 2] = (cell + CELL_WIDTH) as u32;
    work[record] = number;
    work[record + 1] = NO_LINK;
}
