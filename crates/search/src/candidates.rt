// What a set of principals gives, and whether it is a candidate: consistent, of allowed principals, and meeting the guard.

ghost use Rattle.std.specs.Prelude.{◌^◌, ◌<◌, ◌≤◌};
ghost use Rattle.common.specs.Limits.{most_principals, most_related};
ghost use Rattle.search.specs.Search.{ConsistentIn, Consistent, Met, Candidate};
ghost use Rattle.search.specs.Steps.{Decides, MetBy, Gathers};

use crate::Masks;
use crate::sets::{apart, has, within};
use common::MOST_RELATED;

// Whether the privileges g meet the guard.
#[tactic(auto, using(crate::proofs::Decide::guard_tests))]
pub fn meets(every: bool, wanted: u64, g: u64) -> bool
    ensures { Decides result (MetBy every wanted g) }
{
    if every {
        wanted & g == wanted
    } else {
        wanted & g != 0
    }
}

// The privileges that the members of s below n list, where each demarcation or principal has its list.
pub fn gathered(n: usize, s: u32, lists: &[u64; MOST_RELATED]) -> u64
    requires { n ≤ most_related }
    ensures { Gathers n s lists.now result }
{
    let mut g = 0;
    for p in 0..n {
        if has(s, p) {
            g |= lists[p];
        }
    }
    g
}

impl Masks {
    // The privileges that the members of s give.
    pub(crate) fn granted_by(&self, s: u32) -> u64
        ensures { Gathers self.now.count s self.now.grants result }
    {
        gathered(self.count, s, &self.grants)
    }

    // Whether p excludes no member of s, and all that p needs are members of s.
    pub fn consistent_in(&self, s: u32, p: usize) -> bool
        requires { p < most_principals }
        ensures { Decides result (ConsistentIn self.now s p) }
    {
        apart(s, self.excludes[p]) && within(self.needs[p], s)
    }

    // Whether each member of s is consistent in s. Which principals are allowed makes no difference.
    pub fn consistent(&self, s: u32) -> bool
        requires { s < 2 ^ self.now.count }
        ensures { Decides result (Consistent self.now s) }
    {
        (0..self.count).all(|p| !has(s, p) || self.consistent_in(s, p))
    }

    // Whether the members of s meet the guard. Which principals are allowed makes no difference.
    #[tactic(auto, using(crate::proofs::Sums::met_by, crate::proofs::Sums::by_met))]
    pub fn met(&self, s: u32) -> bool
        requires { s < 2 ^ self.now.count }
        ensures { Decides result (Met self.now.every self.now s) }
    {
        meets(self.every, self.wanted, self.granted_by(s))
    }

    // Whether s is a candidate.
    pub(crate) fn candidate(&self, s: u32) -> bool
        requires { s < 2 ^ self.now.count }
        ensures { Decides result (Candidate self.now s) }
    {
        within(s, self.allowed) && self.met(s) && self.consistent(s)
    }
}
