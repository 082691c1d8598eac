// The lister: the tests before any search, the search, and the list in order.
#![tactic(auto)]

ghost use Rattle.std.specs.Prelude.{◌≡◌, length};
ghost use Rattle.lister.specs.declared.NoAnswer.TheVariants.{Broken};
ghost use Rattle.lister.specs.paper.Promise.{listing, Lists};
ghost use Rattle.lister.specs.PromiseLaws.{Admitted, Early};

use area::END;
use image::refusals::{Fault, Refusal};
use machine::Ended;
use sets::LONGEST;

// How many sets are listed, and how many nodes the search visited.
#[derive(Clone, Copy, Debug, PartialEq, Eq)]
pub struct Listed {
    pub count: u32,
    pub nodes: u32,
}

// Why a search gives no answer: the image is at fault, or the call is refused, with the nodes visited.
#[derive(Clone, Copy, Debug, PartialEq, Eq)]
pub enum NoAnswer {
    Broken(Fault),
    Refused(Refusal, u32),
}

impl From<Fault> for NoAnswer {
    ghost from_gives = { λ fault no. no ≡ Broken fault };

    fn from(fault: Fault) -> NoAnswer {
        NoAnswer::Broken(fault)
    }
}

pub const MOST_BUDGET: u32 = 1000000;

// The tests before any search: whether it may begin.
pub fn before_search(image: &[u8], budget: u32, room: usize, space: usize) -> Result<(), NoAnswer>
    ensures { Early image.now budget room space result }
{
    book::read(image)?;
    if LONGEST < room {
        return Err(NoAnswer::Refused(Refusal::LongList, 0));
    }
    if space < END {
        return Err(NoAnswer::Refused(Refusal::ShortArea, 0));
    }
    if MOST_BUDGET < budget {
        return Err(NoAnswer::Refused(Refusal::LargeBudget, 0));
    }
    Ok(())
}

// Lists the smallest explanations of the image's book.
pub fn list(
    image: &[u8],
    budget: u32,
    sets: &mut [u64],
    work: &mut [u32],
) -> Result<Listed, NoAnswer>
    ensures { Lists image.now budget sets.old work.old (listing result) sets.new work.new }
{
    before_search(image, budget, sets.len(), work.len())?;
    list_book(image, budget, sets, work)
}

// The same where the search may begin.
pub fn list_book(
    image: &[u8],
    budget: u32,
    sets: &mut [u64],
    work: &mut [u32],
) -> Result<Listed, NoAnswer>
    requires { Admitted image.now budget (length sets.old) (length work.old) }
    ensures { Lists image.now budget sets.old work.old (listing result) sets.new work.new }
{
    let (refusal, visited) = match machine::search(image, None, budget as usize, sets, work) {
        Ended::Finished(kept, visited) => {
            order::order(&mut sets[..kept]);
            sets::lists::clear(sets, kept);
            let count = kept as u32;
            let nodes = visited as u32;
            return Ok(Listed { count, nodes });
        }
        Ended::UsedUp(visited) => (Refusal::UsedUp, visited),
        Ended::NoRoom(visited) => (Refusal::NoRoom, visited),
    };
    sets::lists::clear(sets, 0);
    Err(NoAnswer::Refused(refusal, visited as u32))
}
