// The agenda: it is laid down, a list comes before it, and its first task is taken in hand.
ghost use Rattle.std.specs.Prelude.{◌+◌, ◌<◌, length};
ghost use Rattle.area.specs.Area as layout;
ghost use Rattle.memory.specs.States.{TASK, AGENDA, LIST};
ghost use Rattle.memory.specs.Pieces.{Layable, LaidDown, Refilled};
ghost use Rattle.memory.specs.Agreed.{Standing, Moved, StandingIn, Moves};

use super::run::{Agenda, Run, State};
use area::{LITERAL_NUMBERS, NO_LIST, PLACES, TRAIL_WIDTH};
use image::fields::field_at;

// Lays the agenda down in the newest trail entry; the link to it. An agenda with no tasks of its own is not laid down, since its link leads to
// the same tasks.
pub fn lay(work: &mut [u32], r: Run) -> usize
    requires { Layable work.old r }
    ensures { LaidDown work.old r work.new result }
{
    if r.agenda.at == r.agenda.end {
        return r.agenda.link;
    }
    let m = r.marked - TRAIL_WIDTH;
    work[m] = r.agenda.at as u32;
    work[m + 1] = r.agenda.end as u32;
    work[m + 2] = r.agenda.link as u32;
    m
}

// An agenda with no tasks of its own gives way to the one in the cell at its link.
fn refilled(work: &[u32], r: Run) -> Run
    requires { (r.agenda.link + 2 < length work.now) × (r.agenda.link < layout.end) }
    ensures { Refilled work.now r result }
{
    if r.agenda.at != r.agenda.end {
        return r;
    }
    let cell = r.agenda.link;
    let agenda = Agenda {
        at: work[cell] as usize,
        end: work[cell + 1] as usize,
        link: work[cell + 2] as usize,
    };
    Run {
        state: State::Agenda,
        agenda,
        ..r
    }
}

// A list comes before the agenda.
pub fn enter(work: &mut [u32], r: Run) -> Run
    requires { StandingIn work.old r LIST }
    ensures { Moves work.old r work.new result AGENDA }
{
    let list = r.task;
    if list < LITERAL_NUMBERS {
        return Run {
            state: State::Task,
            ..r
        };
    }
    if list == NO_LIST {
        return Run {
            state: State::Agenda,
            ..r
        };
    }
    let link = lay(work, r);
    let at = list % PLACES;
    let end = at + 2 * (list / PLACES);
    Run {
        state: State::Agenda,
        agenda: Agenda { at, end, link },
        ..r
    }
}

// The agenda's first task is in hand.
pub fn front(image: &[u8], work: &[u32], r: Run) -> Run
    requires { Standing image.now work.now r AGENDA }
    ensures { Moved image.now work.now r work.now result TASK }
{
    let q = refilled(work, r);
    let at = q.agenda.at;
    if at < q.agenda.end {
        return Run {
            state: State::Task,
            task: field_at(image, at) as usize,
            agenda: Agenda {
                at: at + 2,
                ..q.agenda
            },
            ..q
        };
    }
    Run {
        state: State::Task,
        task: at,
        agenda: Agenda {
            at: work[at + 1] as usize,
            ..q.agenda
        },
        ..q
    }
}
