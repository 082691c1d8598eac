// The joiner of two lists of sets.
#![tactic(auto)]

ghost use Rattle.std.specs.Prelude.{◌≡◌, ◌++◌, [], ◌≤◌, length, take, IfSome};
ghost use Rattle.base.specs.paper.Lists.{any};
ghost use Rattle.sets.specs.paper.Sets.{inside};
ghost use Rattle.sets.specs.paper.Kept.{smallest};
ghost use Rattle.kept.specs.Agreed.{AtFront};
ghost use Rattle.joiner.specs.paper.Join.{joined, Joins};
ghost use Rattle.joiner.specs.Gathering.{gathered, Fitted, FittedOf};

use image::refusals::Refusal;
use sets::{LONGEST, lists};

// Inserts the sets of both lists, and answers how many are kept then, unless those kept on the way outnumber the entries.
fn insert_both(left: &[u64], right: &[u64], out: &mut [u64]) -> Option<usize>
    ensures { IfSome result (λ n. AtFront (smallest (left.now ++ right.now)) n out.new) }
{
    let some = kept::insert_all(out, 0, left)?;
    kept::insert_all(out, some, right)
}

// Whether one of the kept sets, or one of the later ones, is inside `set`.
fn has_other_inside(kept: &[u64], later: &[u64], behind: &[u64], set: u64) -> bool
    ensures { result ≡ any (λ k. inside k set) (kept.now ++ (later.now ++ behind.now)) }
{
    kept::has_inside(kept, set) || kept::has_inside(later, set) || kept::has_inside(behind, set)
}

// Gathers behind the first `count` the sets of `list` that no kept set and no later one is inside, and answers how many are kept
// then; `behind` comes after the list. It stops where they outnumber the entries.
fn gather(list: &[u64], behind: &[u64], out: &mut [u64], count: usize) -> Option<usize>
    requires { count ≤ length out.old }
    ensures { Fitted (gathered behind.now (take count out.old) list.now) result out.new }
{
    let mut held = count;
    for (i, set) in list.iter().enumerate() {
        if !has_other_inside(&out[..held], &list[i + 1..], behind, *set) {
            if held == out.len() {
                return None;
            }
            out[held] = *set;
            held += 1;
        }
    }
    Some(held)
}

// Gathers the smallest sets of both lists.
fn gather_both(left: &[u64], right: &[u64], out: &mut [u64]) -> Option<usize>
    ensures { Fitted (gathered [] [] (left.now ++ right.now)) result out.new }
{
    let some = gather(left, right, out, 0)?;
    gather(right, &[], out, some)
}

// Leaves the smallest sets of both lists in the front of `out`, and answers how many there are, unless they outnumber the entries.
// Inserting is fast, but may keep more sets on the way than there are in the end; what is gathered stays.
fn keep_smallest(left: &[u64], right: &[u64], out: &mut [u64]) -> Option<usize>
    ensures { FittedOf left.now right.now result out.new }
{
    match insert_both(left, right, out) {
        Some(count) => Some(count),
        None => gather_both(left, right, out),
    }
}

// Leaves in `out` each set of the two lists of which neither list has a proper subset, one time, in order, then zeros.
pub fn join(left: &[u64], right: &[u64], out: &mut [u64]) -> Result<u32, Refusal>
    ensures { Joins left.now right.now out.old (joined result) out.new }
{
    if left.len().max(right.len()).max(out.len()) > LONGEST {
        return Err(Refusal::LongList);
    }
    let Some(count) = keep_smallest(left, right, out) else {
        lists::clear(out, 0);
        return Err(Refusal::NoRoom);
    };
    order::order(&mut out[..count]);
    lists::clear(out, count);
    Ok(count as u32)
}
