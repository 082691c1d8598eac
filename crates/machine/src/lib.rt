// The search: the rules of paper 01, 7 as a machine that runs on the tables and the image. The kept sets stand in the front of the lent
// list, all else in the lent work area (area has the layout).
#![tactic(auto)]

mod start;
mod steps;

ghost use Rattle.machine.specs.Agreed.{Searchable, Searched};

// How it has ended: it is finished, with so many sets kept; the budget is used up; the list has no room. Then the nodes visited.
#[derive(Clone, Copy, Debug, PartialEq, Eq)]
pub enum Ended {
    Finished(usize, usize),
    UsedUp(usize),
    NoRoom(usize),
}

// The whole search, from the root, or with a hypothesis wanted true ahead of the goal: started, walked to its end, and cleared.
pub fn search(
    image: &[u8],
    hypothesis: Option<usize>,
    budget: usize,
    sets: &mut [u64],
    work: &mut [u32],
) -> Ended
    requires { Searchable image.now hypothesis sets.old work.old }
    ensures { Searched image.now hypothesis budget work.old sets.new work.new result }
{
    let first = start::start(image, hypothesis, work);
    steps::walk(image, budget, sets, work, first)
}
