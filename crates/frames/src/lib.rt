// The frames of the search: the first way of a node is taken and a frame holds the others; after a failure the newest frame gives its next one.
#![tactic(auto)]

ghost use Rattle.std.specs.Prelude.{◌≡◌, ◌+◌, ◌-◌, ◌/◌, ◌≤◌, ◌<◌, length};
ghost use Rattle.area.specs.Area as layout;
ghost use Rattle.memory.specs.States.{LIST, WAY, FAILED};
ghost use Rattle.memory.specs.Pieces.{Pushable, Pushed, Undoable, undone, restoring};
ghost use Rattle.memory.specs.Agreed.{StandingIn, Moves, Backed};

use area::{CELL_WIDTH, FRAME_WIDTH, FRAMES, NO_LINK, NO_MARK, TRAIL_WIDTH};
use memory::run::{Agenda, Run, State};

// Numbers of 32 bits are below this.
const BITS32: u64 = 1 << 32;

// What a frame has behind the trail's end: the set in two halves, the low one first, the agenda, and the next way.
const LOW_AT: usize = 1;

const HIGH_AT: usize = LOW_AT + 1;

const AGENDA_AT: usize = HIGH_AT + 1;

const AGENDA_END: usize = AGENDA_AT + 1;

const AGENDA_LINK: usize = AGENDA_END + 1;

const WAY_AT: usize = AGENDA_LINK + 1;

// Writes a frame with the ways from `more` on.
fn push(work: &mut [u32], r: Run, more: u32) -> Run
    requires { Pushable work.old r }
    ensures { Pushed work.old r more work.new result }
{
    let f = r.top;
    work[f] = r.marked as u32;
    work[f + LOW_AT] = (r.set % BITS32) as u32;
    work[f + HIGH_AT] = (r.set / BITS32) as u32;
    work[f + AGENDA_AT] = r.agenda.at as u32;
    work[f + AGENDA_END] = r.agenda.end as u32;
    work[f + AGENDA_LINK] = r.agenda.link as u32;
    work[f + WAY_AT] = more;
    Run {
        top: f + FRAME_WIDTH,
        ..r
    }
}

// The first way of a chain, with a frame where there are more.
pub fn choose(work: &mut [u32], r: Run) -> Run
    requires { StandingIn work.old r WAY }
    ensures { Moves work.old r work.new result LIST }
{
    let way = r.task;
    let list = work[way] as usize;
    let others = work[way + 1];
    if others == NO_LINK {
        return Run {
            state: State::List,
            task: list,
            ..r
        };
    }
    let q = push(work, r, others);
    Run {
        state: State::List,
        task: list,
        ..q
    }
}

// Undoes the marks of the trail from `marked` down to `down`.
fn undo(work: &mut [u32], marked: usize, down: usize)
    requires { Undoable work.old marked down }
    ensures { work.new ≡ undone work.old down ((marked - down) / layout.trail_width) }
{
    let mut m = marked;
    while down < m {
        m -= TRAIL_WIDTH;
        let literal = work[m + CELL_WIDTH] as usize;
        work[literal / 2] = NO_MARK;
    }
}

// Marks, set and agenda of the frame at f.
fn restored(work: &[u32], r: Run, f: usize, down: usize) -> Run
    requires { f + layout.frame_width ≤ length work.now }
    ensures { result ≡ restoring work.now r f down }
{
    let low = u64::from(work[f + LOW_AT]);
    let high = u64::from(work[f + HIGH_AT]);
    let agenda = Agenda {
        at: work[f + AGENDA_AT] as usize,
        end: work[f + AGENDA_END] as usize,
        link: work[f + AGENDA_LINK] as usize,
    };
    Run {
        agenda,
        marked: down,
        set: low + BITS32 * high,
        ..r
    }
}

// After a failure the newest frame gives its next way, and goes with its last one.
pub fn back(work: &mut [u32], r: Run) -> Run
    requires { StandingIn work.old r FAILED }
    ensures { Backed work.old r work.new result }
{
    if r.top == FRAMES {
        return Run {
            state: State::Over,
            ..r
        };
    }
    let f = r.top - FRAME_WIDTH;
    let down = work[f] as usize;
    undo(work, r.marked, down);
    let way = work[f + WAY_AT] as usize;
    let more = work[way + 1];
    let q = Run {
        state: State::List,
        task: work[way] as usize,
        ..restored(work, r, f, down)
    };
    work[f + WAY_AT] = more;
    if more == NO_LINK {
        return Run { top: f, ..q };
    }
    q
}
