// The start of a search: the tables are filled, and the first task is in hand.
ghost use Rattle.std.specs.Prelude.{◌≡◌};
ghost use Rattle.machine.specs.Agreed.{Startable, Started};
ghost use Rattle.machine.specs.Start.{root_run};

use area::{CELLS, FRAMES, TRAIL};
use image::front;
use memory::agenda;
use memory::run::{Agenda, Run, State};

// The root: the goal, which ends where the clause count stands, and then the constraints.
fn root(clauses: usize) -> Run
    ensures { result ≡ root_run clauses }
{
    Run {
        state: State::Agenda,
        task: 0,
        agenda: Agenda {
            at: front::GOAL,
            end: clauses,
            link: CELLS,
        },
        marked: TRAIL,
        top: FRAMES,
        nodes: 0,
        count: 0,
        set: 0,
    }
}

// The tables are filled, and the first task is in hand: the root's own, or the hypothesis with the root's agenda behind it.
pub fn start(image: &[u8], hypothesis: Option<usize>, work: &mut [u32]) -> Run
    requires { Startable image.now hypothesis work.old }
    ensures { Started image.now hypothesis work.old work.new result }
{
    tables::fill(image, work);
    let root = root(front::clauses(image));
    match hypothesis {
        None => agenda::front(image, work, root),
        Some(atom) => Run {
            state: State::Task,
            task: 2 * atom,
            ..root
        },
    }
}
