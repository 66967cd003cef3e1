// Sets of small numbers as numbers.

ghost use Rattle.std.specs.Prelude.{◌≡◌, ◌^◌, ◌<◌, ◌≤◌, bit_or, count_ones};
ghost use Rattle.common.specs.Limits.{most_related};
ghost use Rattle.common.specs.Sets.{In, Apart, Within};
ghost use Rattle.search.specs.Steps.{Decides, WithinFrom};

// Whether p is a member of s.
pub fn has(s: u32, p: usize) -> bool
    requires { p < 32 }
    ensures { Decides result (In p s) }
{
    (s >> p) % 2 == 1
}

// Whether a and b have no member in common.
#[tactic(auto, using(common::specs::SetLaws::and_apart, common::specs::SetLaws::apart_and))]
pub(crate) fn apart(a: u32, b: u32) -> bool
    ensures { Decides result (Apart a b) }
{
    a & b == 0
}

// Whether each member of a is one of b.
#[tactic(auto, using(common::specs::SetLaws::and_within, common::specs::SetLaws::within_and))]
pub(crate) fn within(a: u32, b: u32) -> bool
    ensures { Decides result (Within a b) }
{
    a & b == a
}

// Whether each member of a from n on is one of b.
#[tactic(auto, using(crate::proofs::Prunes::from_shift, crate::proofs::Prunes::shift_from))]
pub(crate) fn within_from(a: u32, b: u32, n: usize) -> bool
    requires { n < 32 }
    ensures { Decides result (WithinFrom n a b) }
{
    within(a >> n, b >> n)
}

// The set s, of demarcations or principals, with p added.
pub fn add(s: u32, p: usize) -> u32
    requires { p < most_related }
    ensures { result ≡ bit_or s (2 ^ p) }
{
    s | (1 << p)
}

// How many members s has.
pub(crate) fn size(s: u32) -> usize
    ensures { (result ≡ count_ones s) × (result ≤ 32) }
{
    s.count_ones() as usize
}
