// Clearing the end of a lent list.
ghost use Rattle.std.specs.Prelude.{◌≡◌, ◌++◌, ◌-◌, ◌≤◌, length, take};
ghost use Rattle.sets.specs.paper.Kept.{zeros};

// Zeros from `from` on.
pub fn clear(list: &mut [u64], from: usize)
    requires { from ≤ length list.old }
    ensures { list.new ≡ take from list.old ++ zeros (length list.old - from) }
{
    list[from..].fill(0);
}
