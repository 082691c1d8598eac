// What a node does with the task in hand: a literal is wanted, a record is picked, a success is kept.
#![tactic(auto)]

ghost use Rattle.std.specs.Prelude.{◌≡◌, ◌+◌, ◌^◌, ◌≤◌, ◌<◌, length};
ghost use Rattle.image.specs.paper.Faults.{limits};
ghost use Rattle.sets.specs.paper.Kept.{longest};
ghost use Rattle.area.specs.Area as layout;
ghost use Rattle.memory.specs.Places.{bits64};
ghost use Rattle.memory.specs.Pieces.{Markable, Marked, adding};
ghost use Rattle.memory.specs.Agreed.{Tasked, FreeLiteral, Visited, SuccessKept, Picked, Went};

use area::{
    CELL_WIDTH, FAILS, JOINS, JOINS_SET, LITERAL_NUMBERS, LITERALS, NO_END, NO_LINK, NO_MARK,
    NO_TASK, TRAIL_WIDTH,
};
use memory::agenda::lay;
use memory::run::{Agenda, Run, State};

// Marks the atom of literal y.
fn mark(work: &mut [u32], r: Run, y: usize) -> Run
    requires { Markable work.old r y }
    ensures { Marked work.old r y work.new result }
{
    let m = r.marked;
    work[y / 2] = (y + 1) as u32;
    work[m + CELL_WIDTH] = y as u32;
    Run {
        marked: m + TRAIL_WIDTH,
        ..r
    }
}

// Abducible p joins the set.
fn with_member(r: Run, p: usize) -> Run
    requires { (p < limits.abducibles) × (r.set + 2 ^ p < bits64) }
    ensures { result ≡ adding r p }
{
    Run {
        set: r.set + (1u64 << p),
        ..r
    }
}

// A literal whose atom is unmarked, and whose number is a, is marked.
fn put_on_sheet(work: &mut [u32], r: Run, y: usize, a: u32) -> Run
    requires { FreeLiteral work.old r y a }
    ensures { Visited work.old r work.new result }
{
    let q = mark(work, r, y);
    if a == JOINS_SET {
        return Run {
            state: State::Agenda,
            ..with_member(q, y / 2)
        };
    }
    if a == JOINS {
        return Run {
            state: State::Agenda,
            ..q
        };
    }
    if y % 2 == 1 {
        let link = lay(work, q);
        return Run {
            state: State::Agenda,
            agenda: Agenda {
                at: a as usize,
                end: NO_END,
                link,
            },
            ..q
        };
    }
    Run {
        state: State::Way,
        task: a as usize,
        ..q
    }
}

// A literal is wanted.
fn want(work: &mut [u32], r: Run) -> Run
    requires { Tasked work.old r × (r.task < layout.literal_numbers) }
    ensures { Visited work.old r work.new result }
{
    let y = r.task;
    let seen = work[y / 2];
    if seen != NO_MARK {
        if seen as usize == y + 1 {
            return Run {
                state: State::Agenda,
                ..r
            };
        }
        return Run {
            state: State::Failed,
            ..r
        };
    }
    let a = work[LITERALS + y];
    if a == FAILS {
        return Run {
            state: State::Failed,
            ..r
        };
    }
    put_on_sheet(work, r, y, a)
}

// Puts the set of a success among the kept sets.
fn keep_success(sets: &mut [u64], r: Run) -> Run
    requires { (r.count ≤ length sets.old) × (length sets.old ≤ longest) }
    ensures { SuccessKept sets.old r sets.new result }
{
    let held = r.count;
    let Some(count) = kept::insert(sets, held, r.set) else {
        return Run {
            state: State::Full,
            ..r
        };
    };
    Run {
        state: State::Failed,
        count,
        ..r
    }
}

// A record is picked: it has a chain of ways.
fn pick(sets: &mut [u64], work: &[u32], r: Run) -> Run
    requires { Tasked work.now r × (layout.literal_numbers ≤ r.task) × (r.count ≤ length sets.old) × (length sets.old ≤ longest) }
    ensures { Picked sets.old work.now r sets.new result }
{
    match work[r.task] {
        NO_LINK => Run {
            state: State::Failed,
            ..r
        },
        NO_TASK => keep_success(sets, r),
        way => Run {
            state: State::Way,
            task: way as usize,
            ..r
        },
    }
}

// A node: the task in hand is visited.
pub fn visit(budget: usize, sets: &mut [u64], work: &mut [u32], r: Run) -> Run
    requires { Tasked work.old r × (r.nodes ≤ budget) × (r.count ≤ length sets.old) × (length sets.old ≤ longest) }
    ensures { Went budget sets.old work.old r sets.new work.new result }
{
    if r.nodes == budget {
        return Run {
            state: State::Spent,
            ..r
        };
    }
    let q = Run {
        nodes: r.nodes + 1,
        ..r
    };
    if q.task < LITERAL_NUMBERS {
        return want(work, q);
    }
    pick(sets, work, q)
}
