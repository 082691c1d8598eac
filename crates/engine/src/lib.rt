// The engine's face: the calls of paper 01 on a rule book, each with its promise. No call has a `requires`: on all bytes and numbers
// it ends with an answer or a numbered refusal. The promises stand in specs/paper of the crates that keep them. The reader is `book::read`.
#![tactic(auto)]

ghost use Rattle.judging.specs.paper.Judged.{judgement, Judges};
ghost use Rattle.lister.specs.paper.Promise.{listing, Lists};
ghost use Rattle.admitting.specs.paper.Promise.{admission, Admits};
ghost use Rattle.engine.specs.paper.Verdict.{verdict, Verdicts};
ghost use Rattle.joiner.specs.paper.Join.{joined, Joins};

pub use admitting::Admission;
use image::front;
use image::refusals::Refusal;
pub use judging::{Judgement, NoJudgement};
pub use lister::{Listed, NoAnswer};

mod concluding;
mod deciding;

// The verdict, with the nodes visited.
#[derive(Clone, Copy, Debug, PartialEq, Eq)]
pub enum Verdict {
    Unexplained(u32),
    Needed(u32),
    Possible(u32),
    RuledOut(u32),
}

// Whether the set explains; or where it fails: the place of the first goal literal that is false, or with all of them true of the first
// constraint that is broken; or 1 to 9 with the place, 23.
pub fn judge(image: &[u8], set: u64) -> Result<Judgement, NoJudgement>
    ensures { Judges image.now set (judgement result) }
{
    judging::judge(image, set)
}

// Every smallest set that explains, once, at the front of `sets`, then zeros: how many, and the nodes of the search; or 1 to 9
// with the place, 20, 21, 22, 30, 31 with the nodes.
pub fn list(
    image: &[u8],
    budget: u32,
    sets: &mut [u64],
    work: &mut [u32],
) -> Result<Listed, NoAnswer>
    ensures { Lists image.now budget sets.old work.old (listing result) sets.new work.new }
{
    lister::list(image, budget, sets, work)
}

// Whether some explaining set, of any size, has the hypothesis, or none has, with the nodes of the search; or 1 to 9 with the place, 21, 22, 23,
// 30 with the nodes.
pub fn admits(
    image: &[u8],
    hypothesis: u32,
    budget: u32,
    work: &mut [u32],
) -> Result<Admission, NoAnswer>
    ensures { Admits image.now hypothesis budget work.old (admission result) work.new }
{
    admitting::admits(image, hypothesis, budget, work)
}

// Whether the hypothesis is in every explaining set, in some or in none, or nothing explains: by the list of the smallest, and where that
// does not settle it by a second search; or a refusal, as of `list`, 23 before any search, or 30 of the second.
pub fn verdict_on(
    image: &[u8],
    hypothesis: u32,
    budget: u32,
    sets: &mut [u64],
    work: &mut [u32],
) -> Result<Verdict, NoAnswer>
    ensures { Verdicts image.now hypothesis budget sets.old work.old (verdict result) sets.new work.new }
{
    lister::before_search(image, budget, sets.len(), work.len())?;
    if front::abducibles(image) <= hypothesis {
        return Err(NoAnswer::Refused(Refusal::NoAbducible, 0));
    }
    let listed = lister::list_book(image, budget, sets, work)?;
    concluding::conclude(image, hypothesis, budget, sets, work, listed)
}

// Each set of the two lists of which neither list has a proper subset, one time, in order, at the front of `out`, then zeros; or 20, 31.
pub fn join(left: &[u64], right: &[u64], out: &mut [u64]) -> Result<u32, Refusal>
    ensures { Joins left.now right.now out.old (joined result) out.new }
{
    joiner::join(left, right, out)
}
