// The verdict from a finished listing: by the list where that settles it, and else by the second search.

ghost use Rattle.std.specs.Prelude.{◌≤◌, length, take};
ghost use Rattle.engine.specs.paper.Verdict.{verdict};
ghost use Rattle.engine.specs.VerdictLaws.{Concludable, Seconded, Concluded};

use super::Verdict;
use super::deciding::decide;
use admitting::{Admission, seek_book};
use lister::{Listed, NoAnswer};

// The verdict by the second search, behind the listing's nodes. After its 30 the list is all 0.
fn by_second(
    image: &[u8],
    hypothesis: u32,
    budget: u32,
    sets: &mut [u64],
    work: &mut [u32],
    nodes: u32,
) -> Result<Verdict, NoAnswer>
    requires { Concludable image.now hypothesis budget nodes work.old }
    ensures { Seconded image.now hypothesis budget nodes sets.old work.old (verdict result) sets.new work.new }
{
    match seek_book(image, hypothesis, budget, work) {
        Ok(Admission::Admitted(more)) => Ok(Verdict::Possible(nodes + more)),
        Ok(Admission::Excluded(more)) => Ok(Verdict::RuledOut(nodes + more)),
        Err(NoAnswer::Broken(fault)) => Err(NoAnswer::Broken(fault)),
        Err(NoAnswer::Refused(refusal, more)) => {
            sets::lists::clear(sets, 0);
            Err(NoAnswer::Refused(refusal, nodes + more))
        }
    }
}

// The verdict by the first sets, as many as a listing found.
pub fn conclude(
    image: &[u8],
    hypothesis: u32,
    budget: u32,
    sets: &mut [u64],
    work: &mut [u32],
    listed: Listed,
) -> Result<Verdict, NoAnswer>
    requires { Concludable image.now hypothesis budget listed.nodes work.old × (listed.count ≤ length sets.old) }
    ensures { Concluded image.now hypothesis budget (take listed.count sets.old) listed.nodes sets.old work.old (verdict result) sets.new work.new }
{
    let nodes = listed.nodes;
    match decide(&sets[..listed.count as usize], hypothesis, nodes) {
        Some(settled) => Ok(settled),
        None => by_second(image, hypothesis, budget, sets, work, nodes),
    }
}
