// The kept sets: they stand in the front of a lent list.
#![tactic(auto)]

ghost use Rattle.std.specs.Prelude.{◌≡◌, Bool, not, ℕ, ◌<◌, ◌≤◌, length, take, IfSome};
ghost use mathlib.Core.List.{foldl};
ghost use Rattle.base.specs.paper.Lists.{any, filter};
ghost use Rattle.sets.specs.paper.Sets.{inside};
ghost use Rattle.sets.specs.paper.Kept.{insert};
ghost use Rattle.kept.specs.Agreed.{Decides, first, Overlaid, Inserted, AtFront};

// So many kept sets are looked at in one round of a loop: a round has a cost of its own.
const ROUND: usize = 8;

// Whether every member of a is in b: none is outside it.
pub fn is_inside(a: u64, b: u64) -> bool
    ensures { result ≡ inside a b }
{
    a & !b == 0
}

// The place of the first set that passes the test.
fn place<F: Fn(u64) -> bool>(sets: &[u64], passes: &F) -> Option<usize>
    requires { F.IsAlwaysCallable passes.now }
    ensures first { (test : ℕ → Bool) → Decides (F.post passes.now) test → result ≡ first test sets.now }
    ensures within { IfSome result (λ k. k < length sets.now) }
{
    sets.iter().position(|set| passes(*set))
}

// The same, in rounds.
fn find<F: Fn(u64) -> bool>(sets: &[u64], passes: F) -> Option<usize>
    requires { F.IsAlwaysCallable passes }
    ensures { (test : ℕ → Bool) → Decides (F.post passes) test → result ≡ first test sets.now }
{
    let (rounds, rest) = sets.as_chunks::<ROUND>();
    'rounds: {
        for (i, round) in rounds.iter().enumerate() {
            if let Some(k) = place(round, &passes) {
                break 'rounds Some(ROUND * i + k);
            }
        }
        let k = place(rest, &passes)?;
        Some(ROUND * rounds.len() + k)
    }
}

// Whether one of the kept sets is inside `set`.
pub fn has_inside(kept: &[u64], set: u64) -> bool
    ensures { result ≡ any (λ k. inside k set) kept.now }
{
    find(kept, |k| is_inside(k, set)).is_some()
}

// Drops the sets that contain `set`, and answers how many are left. They keep their order, and those before the first that is
// dropped stay where they are.
#[inline(never)]
pub fn squeeze(kept: &mut [u64], set: u64) -> usize
    ensures { Overlaid (filter (λ k. not (inside set k)) kept.old) kept.old result kept.new }
{
    let Some(first) = find(kept, |k| is_inside(set, k)) else {
        return kept.len();
    };
    let mut left = first;
    for i in first..kept.len() {
        let there = kept[i];
        if !is_inside(set, there) {
            kept[left] = there;
            left += 1;
        }
    }
    left
}

// Inserts `set` into the first `count` sets, and answers how many are kept then. Where there is no room for it, the list is as it was.
#[inline(always)]
pub fn insert(kept: &mut [u64], count: usize, set: u64) -> Option<usize>
    requires { count ≤ length kept.old }
    ensures { Inserted (insert (take count kept.old) set) kept.old result kept.new }
{
    if has_inside(&kept[..count], set) {
        return Some(count);
    }
    let left = squeeze(&mut kept[..count], set);
    if left == kept.len() {
        return None;
    }
    kept[left] = set;
    Some(left + 1)
}

// Inserts the sets of `list` one after the other, and answers how many are kept then; it stops where those kept on the way outnumber
// the entries.
pub fn insert_all(kept: &mut [u64], count: usize, list: &[u64]) -> Option<usize>
    requires { count ≤ length kept.old }
    ensures { IfSome result (λ n. AtFront (foldl insert (take count kept.old) list.now) n kept.new) }
{
    let mut held = count;
    for set in list {
        held = insert(kept, held, *set)?;
    }
    Some(held)
}
