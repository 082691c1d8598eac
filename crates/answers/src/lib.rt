// The line that tells the answer of each call, and what it left in lent memory.
#![tactic(auto)]

use cases::output;
use engine::{Admission, Judgement, NoAnswer, NoJudgement, Verdict};
use std::io;

pub fn read<R: Print>(rt: &R, image: &[u8]) -> io::Result<()> {
    match book::read(image) {
        Ok(()) => println!(rt; "accepted"),
        Err(fault) => println!(rt; "refused {fault}"),
    }
}

pub fn judge<R: Print>(rt: &R, image: &[u8], set: u64) -> io::Result<()> {
    match engine::judge(image, set) {
        Ok(Judgement::Explains) => println!(rt; "explains"),
        Ok(Judgement::FalseGoal(place)) => println!(rt; "goal {place}"),
        Ok(Judgement::BrokenConstraint(place)) => println!(rt; "constraint {place}"),
        Err(NoJudgement::Broken(fault)) => println!(rt; "refused {fault}"),
        Err(NoJudgement::Refused(refusal)) => println!(rt; "refused {refusal}"),
    }
}

// Why a search gave no answer; the line goes on.
fn unanswered<R: Print>(rt: &R, no: NoAnswer) -> io::Result<()> {
    match no {
        NoAnswer::Broken(fault) => {
            print!(rt; "refused {} nodes 0 at {}", fault.refusal, fault.place)
        }
        NoAnswer::Refused(refusal, nodes) => print!(rt; "refused {refusal} nodes {nodes}"),
    }
}

pub fn list<R: Print>(
    rt: &R,
    image: &[u8],
    budget: u32,
    sets: &mut [u64],
    work: &mut [u32],
) -> io::Result<()> {
    match engine::list(image, budget, sets, work) {
        Ok(listed) => print!(rt; "listed {} nodes {}", listed.count, listed.nodes),
        Err(no) => unanswered(rt, no),
    }?;
    output::left(rt, sets, work)
}

pub fn verdict<R: Print>(
    rt: &R,
    image: &[u8],
    hypothesis: u32,
    budget: u32,
    sets: &mut [u64],
    work: &mut [u32],
) -> io::Result<()> {
    match engine::verdict_on(image, hypothesis, budget, sets, work) {
        Ok(Verdict::Unexplained(nodes)) => print!(rt; "unexplained nodes {nodes}"),
        Ok(Verdict::Needed(nodes)) => print!(rt; "needed nodes {nodes}"),
        Ok(Verdict::Possible(nodes)) => print!(rt; "possible nodes {nodes}"),
        Ok(Verdict::RuledOut(nodes)) => print!(rt; "ruled out nodes {nodes}"),
        Err(no) => unanswered(rt, no),
    }?;
    output::left(rt, sets, work)
}

pub fn admits<R: Print>(
    rt: &R,
    image: &[u8],
    hypothesis: u32,
    budget: u32,
    work: &mut [u32],
) -> io::Result<()> {
    match engine::admits(image, hypothesis, budget, work) {
        Ok(Admission::Admitted(nodes)) => print!(rt; "admitted nodes {nodes}"),
        Ok(Admission::Excluded(nodes)) => print!(rt; "excluded nodes {nodes}"),
        Err(no) => unanswered(rt, no),
    }?;
    println!(rt; " work {}", output::state(work))
}

pub fn join<R: Print>(rt: &R, left: &[u64], right: &[u64], out: &mut [u64]) -> io::Result<()> {
    match engine::join(left, right, out) {
        Ok(count) => print!(rt; "joined {count}"),
        Err(refusal) => print!(rt; "refused {refusal}"),
    }?;
    output::entries(rt, out)?;
    println!(rt)
}
