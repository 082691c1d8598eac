// The cleaner of paper 02, A4: whether a group of soundings may be deleted, or is held and why. It knows the engine by its promises alone.
#![tactic(auto)]

mod listed;
mod refusals;
mod sorting;

ghost use Rattle.cleaner.specs.paper.Cleaning.{cleaning, Cleans};

use image::limits::LONGEST_IMAGE;
use image::refusals::Refusal;

// The hypotheses by their verdicts: for each of the four the set of those that have it.
#[derive(Clone, Copy, Debug, Default, PartialEq, Eq)]
pub struct Sorted {
    pub unexplained: u64,
    pub needed: u64,
    pub possible: u64,
    pub excluded: u64,
}

// Deleted, or held with all verdicts.
#[derive(Clone, Copy, Debug, PartialEq, Eq)]
pub enum Cleaning {
    Deleted,
    Held(Sorted),
}

// Whether all the hypotheses are ruled out once the group's atoms are observed, with the verdict on each where one is not; or a refusal: the
// book's own, 40, 41, 42, 5, 20 to 23, 30, 31.
pub fn clean(
    book: &[u8],
    group: &[u8],
    hypotheses: u64,
    budget: u32,
    sets: &mut [u64],
    work: &mut [u32],
) -> Result<Cleaning, Refusal>
    ensures { Cleans book.now group.now hypotheses budget sets.old work.old (cleaning result) sets.new work.new }
{
    let group = refusals::admit(book, group, hypotheses, budget, sets.len(), work.len())?;
    let mut room = [0u8; LONGEST_IMAGE];
    let bytes = groups::writing::write(book, group, &mut room);
    sorting::look(&room[..bytes], hypotheses, budget, sets, work)
}
