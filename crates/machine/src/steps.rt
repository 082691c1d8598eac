// The search, step by step, from where it stands to its end.
ghost use Rattle.memory.specs.States.{TASK, AGENDA, LIST, WAY, FAILED};
ghost use Rattle.machine.specs.Agreed.{Ready, Somewhere, Passes, Stepped, Tells, Walked, Placed, Onward};

use super::Ended;
use area::END;
use frames::{back, choose};
use memory::agenda::{enter, front};
use memory::run::{Run, State};
use visit::visit;

// A node that failed goes back.
fn after_failure(work: &mut [u32], r: Run) -> Run
    requires { Somewhere work.old r FAILED }
    ensures { Passes work.old r FAILED work.new result WAY }
{
    match r.state {
        State::Failed => back(work, r),
        _ => r,
    }
}

// Ways are taken.
fn after_ways(work: &mut [u32], r: Run) -> Run
    requires { Somewhere work.old r WAY }
    ensures { Passes work.old r WAY work.new result LIST }
{
    match r.state {
        State::Way => choose(work, r),
        _ => r,
    }
}

// A list is entered.
fn after_list(work: &mut [u32], r: Run) -> Run
    requires { Somewhere work.old r LIST }
    ensures { Passes work.old r LIST work.new result AGENDA }
{
    match r.state {
        State::List => enter(work, r),
        _ => r,
    }
}

// An agenda gives its first task.
fn after_agenda(image: &[u8], work: &[u32], r: Run) -> Run
    requires { Placed image.now work.now r AGENDA }
    ensures { Onward image.now work.now r result }
{
    match r.state {
        State::Agenda => front(image, work, r),
        _ => r,
    }
}

// A node, up to the next task.
fn step(image: &[u8], budget: usize, sets: &mut [u64], work: &mut [u32], r: Run) -> Run
    requires { Ready image.now budget sets.old work.old r }
    ensures { Stepped image.now budget sets.old work.old r sets.new work.new result TASK }
{
    let visited = visit(budget, sets, work, r);
    let returned = after_failure(work, visited);
    let chosen = after_ways(work, returned);
    let entered = after_list(work, chosen);
    after_agenda(image, work, entered)
}

// How a run has ended.
fn ended(r: Run) -> Ended
    ensures { Tells r result }
{
    match r.state {
        State::Over => Ended::Finished(r.count, r.nodes),
        State::Spent => Ended::UsedUp(r.nodes),
        _ => Ended::NoRoom(r.nodes),
    }
}

// From the first task to the end; and the work area is cleared.
pub fn walk(image: &[u8], budget: usize, sets: &mut [u64], work: &mut [u32], first: Run) -> Ended
    requires { Ready image.now budget sets.old work.old first }
    ensures { Walked image.now budget sets.old work.old first sets.new work.new result }
{
    let mut r = first;
    while let State::Task = r.state {
        r = step(image, budget, sets, work, r);
    }
    area::wipe(work, END);
    ended(r)
}
