// The parts of a code: a refusal's number above what it comes with.
ghost use Rattle.std.specs.Prelude.{◌≡◌, ◌+◌, ◌*◌, ◌≤◌};
ghost use Rattle.image.specs.paper.Refusals.{number_of};
ghost use Rattle.image.specs.Encode.{longest_image};
ghost use Rattle.embed.specs.paper.Codes.{node_codes, verdict_refused, broken_code};
ghost use Rattle.embed.specs.Bounds.{NoAnswerWithin, no_answer_code};

use engine::NoAnswer;
use image::refusals::{Fault, Refusal};

// How many codes there are for the nodes, for a count without nodes or for a place, 2^32.
pub const NODE_CODES: u64 = 1 << 32;

// How many codes there are for a kind of answer, 2^56.
pub const KIND_CODES: u64 = 1 << 56;

// The image's own refusal: its number above its place.
pub fn broken_code(fault: Fault) -> u64
    requires { fault.place ≤ longest_image }
    ensures { result ≡ broken_code (number_of fault.refusal) fault.place }
{
    NODE_CODES * u64::from(fault.refusal.number()) + fault.place as u64
}

// A refusal with the nodes visited: its number above them.
pub fn refused_code(refusal: Refusal, nodes: u32) -> u64
    ensures { result ≡ node_codes * number_of refusal + nodes }
{
    NODE_CODES * u64::from(refusal.number()) + u64::from(nodes)
}

// Why a search gives no answer: the refusals have the codes of this kind, and the image's own those of the next.
pub fn no_answer_code(no: NoAnswer, kind: u64) -> u64
    requires { (kind ≤ verdict_refused) × NoAnswerWithin no }
    ensures { result ≡ no_answer_code no kind }
{
    match no {
        NoAnswer::Broken(fault) => kind + KIND_CODES + broken_code(fault),
        NoAnswer::Refused(refusal, nodes) => kind + refused_code(refusal, nodes),
    }
}
