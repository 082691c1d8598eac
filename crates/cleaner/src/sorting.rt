// The verdicts on a group: by one listing, and a second search for each hypothesis that the list does not settle.
ghost use Rattle.std.specs.Prelude.{◌≡◌, ◌+◌, ◌^◌, ◌<◌, ◌≤◌};
ghost use Rattle.image.specs.Accepted.{IsBook, book_in};
ghost use Rattle.lister.specs.paper.Promise.{most_budget};
ghost use Rattle.cleaner.specs.paper.Cleaning.{cleaning};
ghost use Rattle.cleaner.specs.Sorting.{Wiped, Seconded, One, All, Concluded};
ghost use Rattle.cleaner.specs.Looking.{Ripe, Looked};

use super::listed::{Listed, tell};
use super::{Cleaning, Sorted};
use engine::Admission;
use image::refusals::Refusal;
use lister::NoAnswer;
use sets::members::{SET_BITS, is_in, with_member};

// What the verdicts go by: the group's image, the hypotheses, each of which is an abducible of it, and what the listing tells of them.
#[derive(Clone, Copy)]
struct Sorter<'a> {
    image: &'a [u8],
    hypotheses: u64,
    budget: u32,
    listed: Listed,
    ghost book: { IsBook image.now },
    ghost named: { hypotheses < 2 ^ (book_in image.now).abducibles },
    ghost low: { budget ≤ most_budget },
}

impl<'a> Sorter<'a> {
    // The verdict on h by the second search; none where that is spent.
    fn by_second(self, h: u32, work: &mut [u32], sorted: Sorted) -> Option<Sorted>
        requires { (h < (book_in self.image.now).abducibles) × Wiped work.old }
        ensures { Seconded self.entry.image.now h self.entry.budget sorted work.old result work.new }
    {
        match engine::admits(self.image, h, self.budget, work) {
            Ok(Admission::Admitted(_)) => Some(Sorted {
                possible: with_member(sorted.possible, h),
                ..sorted
            }),
            Ok(Admission::Excluded(_)) => Some(Sorted {
                excluded: with_member(sorted.excluded, h),
                ..sorted
            }),
            Err(_) => None,
        }
    }

    // The verdict on h, by the list where that settles it.
    fn sort_one(self, h: u32, work: &mut [u32], sorted: Sorted) -> Option<Sorted>
        requires { (h < (book_in self.image.now).abducibles) × Wiped work.old }
        ensures { One self.entry.image.now h self.entry.budget self.entry.listed sorted work.old result work.new }
    {
        if self.listed.count == 0 {
            return Some(Sorted {
                unexplained: with_member(sorted.unexplained, h),
                ..sorted
            });
        }
        if is_in(self.listed.every, h) {
            return Some(Sorted {
                needed: with_member(sorted.needed, h),
                ..sorted
            });
        }
        if is_in(self.listed.some, h) {
            return Some(Sorted {
                possible: with_member(sorted.possible, h),
                ..sorted
            });
        }
        self.by_second(h, work, sorted)
    }

    // The verdicts on all hypotheses, from the lowest up.
    fn sort_all(self, work: &mut [u32]) -> Option<Sorted>
        requires { Wiped work.old }
        ensures { All self.entry.image.now self.entry.hypotheses self.entry.budget self.entry.listed work.old result work.new }
    {
        let mut sorted = Sorted::default();
        for h in 0..SET_BITS {
            if is_in(self.hypotheses, h) {
                sorted = self.sort_one(h, work, sorted)?;
            }
        }
        Some(sorted)
    }

    // The answer by all verdicts; after a spent second search the list is all 0.
    fn conclude(self, sets: &mut [u64], work: &mut [u32]) -> Result<Cleaning, Refusal>
        requires { Wiped work.old }
        ensures { Concluded self.entry.image.now self.entry.hypotheses self.entry.budget self.entry.listed sets.old work.old (cleaning result) sets.new work.new }
    {
        let Some(sorted) = self.sort_all(work) else {
            sets.fill(0);
            return Err(Refusal::UsedUp);
        };
        if sorted.excluded == self.hypotheses {
            return Ok(Cleaning::Deleted);
        }
        Ok(Cleaning::Held(sorted))
    }
}

// The answer on the group's image.
pub fn look(
    image: &[u8],
    hypotheses: u64,
    budget: u32,
    sets: &mut [u64],
    work: &mut [u32],
) -> Result<Cleaning, Refusal>
    requires { Ripe image.now hypotheses budget sets.old work.old }
    ensures { Looked image.now hypotheses budget sets.old work.old (cleaning result) sets.new work.new }
{
    match engine::list(image, budget, sets, work) {
        Ok(found) => {
            let sorter = Sorter {
                image,
                hypotheses,
                budget,
                listed: tell(sets, found.count, hypotheses),
            };
            sorter.conclude(sets, work)
        }
        Err(NoAnswer::Broken(fault)) => Err(fault.refusal),
        Err(NoAnswer::Refused(refusal, _)) => Err(refusal),
    }
}
