// What the sets of a finished listing settle of a hypothesis.

ghost use Rattle.std.specs.Prelude.{◌≡◌, ◌<◌};
ghost use Rattle.base.specs.paper.Lists.{all, any};
ghost use Rattle.image.specs.paper.Faults.{limits};
ghost use Rattle.base.specs.paper.Members.{has};
ghost use Rattle.engine.specs.VerdictLaws.{settles};

use super::Verdict;
use sets::members::is_in;

// Whether it is in each of the sets.
pub fn in_every(sets: &[u64], hypothesis: u32) -> bool
    requires { hypothesis < limits.abducibles }
    ensures { result ≡ all (λ s. has s hypothesis) sets.now }
{
    sets.iter().all(|s| is_in(*s, hypothesis))
}

// Whether it is in one of them.
pub fn in_some(sets: &[u64], hypothesis: u32) -> bool
    requires { hypothesis < limits.abducibles }
    ensures { result ≡ any (λ s. has s hypothesis) sets.now }
{
    sets.iter().any(|s| is_in(*s, hypothesis))
}

// The verdict that the sets settle, behind so many nodes. It is left open where there is a set and none has the hypothesis.
pub fn decide(sets: &[u64], hypothesis: u32, nodes: u32) -> Option<Verdict>
    requires { hypothesis < limits.abducibles }
    ensures { result ≡ settles hypothesis sets.now nodes }
{
    if sets.is_empty() {
        return Some(Verdict::Unexplained(nodes));
    }
    if in_every(sets, hypothesis) {
        return Some(Verdict::Needed(nodes));
    }
    if in_some(sets, hypothesis) {
        return Some(Verdict::Possible(nodes));
    }
    None
}
