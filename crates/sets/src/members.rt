// Membership in a set, and a set with a member more.
ghost use Rattle.std.specs.Prelude.{◌≡◌, ◌^◌, ◌<◌, leb};
ghost use Rattle.std.specs.Int.Bits.{bit_or};
ghost use Rattle.base.specs.paper.Members.{has};
ghost use Rattle.sets.specs.SetLaws.{set_bits};

// A set is a number of so many bits.
pub const SET_BITS: u32 = u64::BITS;

// Whether abducible j is in the set.
pub fn is_in(set: u64, j: u32) -> bool
    requires { j < set_bits }
    ensures { result ≡ has set j }
{
    (set >> j) % 2 == 1
}

// The set with abducible j.
pub fn with_member(set: u64, j: u32) -> u64
    requires { j < set_bits }
    ensures { result ≡ bit_or (2 ^ j) set }
{
    (1u64 << j) | set
}

// Whether the set names an abducible of this number or above.
pub fn names_above(set: u64, abducibles: u32) -> bool
    ensures { result ≡ leb (2 ^ abducibles) set }
{
    abducibles < SET_BITS && 0 < set >> abducibles
}
