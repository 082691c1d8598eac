// The engine for callers in C and Rust: each call under a plain name, its answer as one number (specs/paper/Codes). A `&[u8]` is passed
// as a pointer and then a length.
#![tactic(auto)]

mod codes;

ghost use Rattle.std.specs.Prelude.{◌≡◌};
ghost use Rattle.embed.specs.paper.Codes.{ReadingCode, JudgementCode, ListingCode, AdmissionCode, VerdictCode, JoinedCode, writing_code, WritingCode};
ghost use Rattle.image.specs.paper.Writing.{writing};
ghost use Rattle.spelling.specs.paper.Answer.{image_of, name_lines};

use codes::{KIND_CODES, NODE_CODES, broken_code, no_answer_code, refused_code};
use engine::{Admission, Judgement, NoJudgement, Verdict};
use image::refusals::Refusal;

// Where the codes of each kind begin, but of the first; those of an image's own refusal behind a search are the next behind the refusals'.
const FALSE_GOAL: u64 = KIND_CODES;

const BROKEN_CONSTRAINT: u64 = 2 * KIND_CODES;

const JUDGE_REFUSED: u64 = 3 * KIND_CODES;

const JUDGE_BROKEN: u64 = 4 * KIND_CODES;

const LIST_REFUSED: u64 = KIND_CODES;

const EXCLUDED: u64 = KIND_CODES;

const ADMITS_REFUSED: u64 = 2 * KIND_CODES;

const NEEDED: u64 = KIND_CODES;

const POSSIBLE: u64 = 2 * KIND_CODES;

const RULED_OUT: u64 = 3 * KIND_CODES;

const VERDICT_REFUSED: u64 = 4 * KIND_CODES;

#[unsafe(no_mangle)]
pub extern "C" fn wizogbare_read(image: &[u8]) -> u64
    ensures { ReadingCode image.now result }
{
    match book::read(image) {
        Ok(()) => 0,
        Err(fault) => broken_code(fault),
    }
}

#[unsafe(no_mangle)]
pub extern "C" fn wizogbare_judge(image: &[u8], set: u64) -> u64
    ensures { JudgementCode image.now set result }
{
    match engine::judge(image, set) {
        Ok(Judgement::Explains) => 0,
        Ok(Judgement::FalseGoal(place)) => FALSE_GOAL + u64::from(place),
        Ok(Judgement::BrokenConstraint(place)) => BROKEN_CONSTRAINT + u64::from(place),
        Err(NoJudgement::Broken(fault)) => JUDGE_BROKEN + broken_code(fault),
        Err(NoJudgement::Refused(refusal)) => JUDGE_REFUSED + u64::from(refusal.number()),
    }
}

#[unsafe(no_mangle)]
pub extern "C" fn wizogbare_list(
    image: &[u8],
    budget: u32,
    sets: &mut [u64],
    work: &mut [u32],
) -> u64
    ensures { ListingCode image.now budget sets.old work.old result sets.new work.new }
{
    match engine::list(image, budget, sets, work) {
        Ok(listed) => NODE_CODES * u64::from(listed.count) + u64::from(listed.nodes),
        Err(no) => no_answer_code(no, LIST_REFUSED),
    }
}

#[unsafe(no_mangle)]
pub extern "C" fn wizogbare_admits(
    image: &[u8],
    hypothesis: u32,
    budget: u32,
    work: &mut [u32],
) -> u64
    ensures { AdmissionCode image.now hypothesis budget work.old result work.new }
{
    match engine::admits(image, hypothesis, budget, work) {
        Ok(Admission::Admitted(nodes)) => u64::from(nodes),
        Ok(Admission::Excluded(nodes)) => EXCLUDED + u64::from(nodes),
        Err(no) => no_answer_code(no, ADMITS_REFUSED),
    }
}

#[unsafe(no_mangle)]
pub extern "C" fn wizogbare_verdict(
    image: &[u8],
    hypothesis: u32,
    budget: u32,
    sets: &mut [u64],
    work: &mut [u32],
) -> u64
    ensures { VerdictCode image.now hypothesis budget sets.old work.old result sets.new work.new }
{
    match engine::verdict_on(image, hypothesis, budget, sets, work) {
        Ok(Verdict::Unexplained(nodes)) => u64::from(nodes),
        Ok(Verdict::Needed(nodes)) => NEEDED + u64::from(nodes),
        Ok(Verdict::Possible(nodes)) => POSSIBLE + u64::from(nodes),
        Ok(Verdict::RuledOut(nodes)) => RULED_OUT + u64::from(nodes),
        Err(no) => no_answer_code(no, VERDICT_REFUSED),
    }
}

#[unsafe(no_mangle)]
pub extern "C" fn wizogbare_join(left: &[u64], right: &[u64], out: &mut [u64]) -> u64
    ensures { JoinedCode left.now right.now out.old result out.new }
{
    match engine::join(left, right, out) {
        Ok(count) => u64::from(count),
        Err(refusal) => refused_code(refusal, 0),
    }
}

// Of a call that writes bytes.
fn writing_code(answer: Result<u32, Refusal>) -> u64
    ensures { result ≡ writing_code (writing answer) }
{
    match answer {
        Ok(bytes) => u64::from(bytes),
        Err(refusal) => NODE_CODES * u64::from(refusal.number()),
    }
}

#[unsafe(no_mangle)]
pub extern "C" fn wizogbare_text(text: &[u8], image: &mut [u8]) -> u64
    ensures { WritingCode image_of text.now image.old result image.new }
{
    writing_code(text::read(text, image))
}

#[unsafe(no_mangle)]
pub extern "C" fn wizogbare_names(text: &[u8], room: &mut [u8]) -> u64
    ensures { WritingCode name_lines text.now room.old result room.new }
{
    writing_code(text::names(text, room))
}
