// The second search as a call: whether some explaining set has the hypothesis (paper 02, A3.7).
#![tactic(auto)]

ghost use Rattle.admitting.specs.paper.Promise.{admission, Admits};
ghost use Rattle.admitting.specs.AdmitLaws.{Seekable, Sought};

use image::front;
use image::refusals::Refusal;
use lister::{NoAnswer, before_search};
use machine::Ended;

// Whether some explaining set has the hypothesis, or none has, then the nodes visited.
#[derive(Clone, Copy, Debug, PartialEq, Eq)]
pub enum Admission {
    Admitted(u32),
    Excluded(u32),
}

// The search has a list of no entries, so that none is too long, and the first success ends it.
const NO_ROOM: usize = 0;

// The search itself, where it may begin.
pub fn seek_book(
    image: &[u8],
    hypothesis: u32,
    budget: u32,
    work: &mut [u32],
) -> Result<Admission, NoAnswer>
    requires { Seekable image.now hypothesis budget work.old }
    ensures { Sought image.now hypothesis budget work.old (admission result) work.new }
{
    let mut none = [0u64; NO_ROOM];
    let atom = Some(hypothesis as usize);
    match machine::search(image, atom, budget as usize, &mut none, work) {
        Ended::Finished(_, visited) => Ok(Admission::Excluded(visited as u32)),
        Ended::UsedUp(visited) => Err(NoAnswer::Refused(Refusal::UsedUp, visited as u32)),
        Ended::NoRoom(visited) => Ok(Admission::Admitted(visited as u32)),
    }
}

// Whether some explaining set, of any size, has the hypothesis.
pub fn admits(
    image: &[u8],
    hypothesis: u32,
    budget: u32,
    work: &mut [u32],
) -> Result<Admission, NoAnswer>
    ensures { Admits image.now hypothesis budget work.old (admission result) work.new }
{
    before_search(image, budget, NO_ROOM, work.len())?;
    if front::abducibles(image) <= hypothesis {
        return Err(NoAnswer::Refused(Refusal::NoAbducible, 0));
    }
    seek_book(image, hypothesis, budget, work)
}
