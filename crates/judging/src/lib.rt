// The judge: paper 01, 6. It works on the lent image itself; the meaning is crate meaning's.
#![tactic(auto)]

pub mod constraints;
pub mod values;

ghost use Rattle.std.specs.Prelude.{◌≡◌};
ghost use Rattle.image.specs.Accepted.{IsBook, book_in};
ghost use Rattle.judging.specs.declared.NoJudgement.TheVariants.{Broken};
ghost use Rattle.judging.specs.paper.Judged.{judgement, judged_book, Judges};

use image::front;
use image::refusals::{Fault, Refusal};
use sets::members::names_above;
use values::Judge;

// What the judge finds. Goal literals and constraints are numbered from 0.
#[derive(Clone, Copy, Debug, PartialEq, Eq)]
pub enum Judgement {
    Explains,
    FalseGoal(u32),
    BrokenConstraint(u32),
}

// Why there is no judgement: the image is refused, or the set.
#[derive(Clone, Copy, Debug, PartialEq, Eq)]
pub enum NoJudgement {
    Broken(Fault),
    Refused(Refusal),
}

impl From<Fault> for NoJudgement {
    ghost from_gives = { λ fault no. no ≡ Broken fault };

    fn from(fault: Fault) -> NoJudgement {
        NoJudgement::Broken(fault)
    }
}

// The answer on an accepted image.
fn judge_accepted(image: &[u8], set: u64) -> Result<Judgement, NoJudgement>
    requires { IsBook image.now }
    ensures { judgement result ≡ judged_book (book_in image.now) set }
{
    if names_above(set, front::abducibles(image)) {
        return Err(NoJudgement::Refused(Refusal::NoAbducible));
    }
    let mut judge = Judge::new(image, set);
    let goal = &image[front::GOAL..front::clauses(image)];
    if let Some(place) = judge.first_false(goal) {
        return Ok(Judgement::FalseGoal(place as u32));
    }
    match judge.first_broken() {
        Some(place) => Ok(Judgement::BrokenConstraint(place as u32)),
        None => Ok(Judgement::Explains),
    }
}

// Explains; or where it fails: the place of the first goal literal that is false, or with all of them true of the first constraint that is
// broken; or why the image or the set is refused.
pub fn judge(image: &[u8], set: u64) -> Result<Judgement, NoJudgement>
    ensures { Judges image.now set (judgement result) }
{
    book::read(image)?;
    judge_accepted(image, set)
}
