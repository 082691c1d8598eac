// What the cleaner keeps of a finished listing.
ghost use Rattle.std.specs.Prelude.{◌≤◌, length, take};
ghost use Rattle.cleaner.specs.Told.{Tells};

// How many sets there are; of the hypotheses those that all of the sets have; and the members that some has.
#[derive(Clone, Copy, Debug, PartialEq, Eq)]
pub struct Listed {
    pub count: u32,
    pub every: u64,
    pub some: u64,
}

// What the first `count` sets tell of the hypotheses.
pub fn tell(list: &[u64], count: u32, hypotheses: u64) -> Listed
    requires { count ≤ length list.now }
    ensures { Tells hypotheses result (take count list.now) }
{
    let sets = &list[..count as usize];
    Listed {
        count,
        every: sets.iter().fold(hypotheses, |every, set| every & *set),
        some: sets.iter().fold(0, |some, set| some | *set),
    }
}
