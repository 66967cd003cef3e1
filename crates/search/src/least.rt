// The search itself: the least candidate.

ghost use Rattle.std.specs.Prelude.{◌≡◌, ℕ, ◌+◌, ◌^◌, ◌<◌, ◌≤◌, bit_and, bit_or, count_ones};
ghost use Rattle.common.specs.Limits.{most_principals};
ghost use Rattle.common.specs.Sets.{Within};
ghost use Rattle.search.specs.Answers.{found_values};
ghost use Rattle.search.specs.Search.{Least};
ghost use Rattle.search.specs.Steps.{Decides, NeededBy, Joins, State, Completed, OfSize};

use crate::sets::{add, apart, has, size, within_from};
use crate::{Choice, Limit, Masks};
use common::MOST_PRINCIPALS;

impl Choice {
    const NOTHING: Choice = Choice {
        chosen: 0,
        needed: 0,
        barred: 0,
    };

    // With m passed by.
    fn passing(self, m: usize) -> Choice
        requires { m < most_principals }
        ensures { result ≡ record { chosen = self.chosen; needed = self.needed; barred = bit_or self.barred (2 ^ m) } }
    {
        Choice {
            barred: add(self.barred, m),
            ..self
        }
    }

    // With m chosen, which is below the chosen ones and needs these.
    fn taking(self, m: usize, needs: u32) -> Choice
        requires small { m < most_principals }
        requires fits { self.chosen + 2 ^ m < 2 ^ most_principals }
        ensures { result ≡ record { chosen = self.chosen + 2 ^ m; needed = bit_or self.needed needs; barred = self.barred } }
    {
        Choice {
            chosen: self.chosen + (1 << m),
            needed: self.needed | needs,
            ..self
        }
    }
}

impl Masks {
    // Whether m may stand with the set c, whose members are above m.
    fn joins(&self, c: u32, m: usize) -> bool
        requires { m < most_principals }
        ensures { Decides result (Joins self.now c m) }
    {
        has(self.allowed, m) && apart(c, self.excludes[m]) && within_from(self.needs[m], c, m + 1)
    }

    // What the chosen ones come to with k more principals, j of them role principals.
    fn limit_with(&self, chosen: u32, k: usize, j: usize) -> Limit
        requires { (k ≤ most_principals) × (j ≤ most_principals) }
        ensures { (result.members ≡ count_ones chosen + k)
            × (result.role_principals ≡ count_ones (bit_and chosen self.now.role_principals) + j) }
    {
        Limit {
            members: size(chosen) + k,
            role_principals: size(chosen & self.role_principals) + j,
        }
    }

    // The least candidate that is chosen and k more principals below n, j of them role principals.
    fn search(&self, n: usize, k: usize, j: usize, choice: Choice) -> Option<u32>
        requires state { State self.now n choice.chosen choice.barred }
        requires needed_by { NeededBy self.now choice.chosen choice.needed }
        ensures { Completed self.now n k j choice.chosen (found_values result) }
    {
        if k < j {
            return None;
        }
        if n < k {
            return None;
        }
        if k == 0 {
            return self.candidate(choice.chosen).then_some(choice.chosen);
        }
        let limit = self.limit_with(choice.chosen, k, j);
        if !self.feasible(limit, choice.chosen | choice.needed, choice.barred) {
            return None;
        }
        let m = n - 1;
        if !has(choice.needed, m) {
            if let Some(s) = self.search(m, k, j, choice.passing(m)) {
                return Some(s);
            }
        }
        if !self.joins(choice.chosen, m) {
            return None;
        }
        let added = self.role_count_of(m);
        if j < added {
            return None;
        }
        self.search(m, k - 1, j - added, choice.taking(m, self.needs[m]))
    }

    // How many role principals m is: 1 or 0.
    fn role_count_of(&self, m: usize) -> usize
        requires { m < most_principals }
        ensures { result ≡ count_ones (bit_and (2 ^ m) self.now.role_principals) }
    {
        size(add(0, m) & self.role_principals)
    }

    // No set of k allowed principals has more role principals than this: k, or as many as are allowed.
    #[tactic(auto, using(crate::proofs::Counts::ones_and, crate::proofs::Counts::within_role_count))]
    fn most_roles(&self, k: usize) -> usize
        ensures { ((t : ℕ) → Within t self.now.allowed → count_ones t ≡ k
            → count_ones (bit_and t self.now.role_principals) ≤ result) × (result ≤ 32) }
    {
        size(self.allowed & self.role_principals).min(k)
    }

    // No set of k allowed principals has fewer role principals than this: k less the others that are allowed.
    #[tactic(auto, using(crate::proofs::Counts::ones_and, crate::proofs::Counts::within_others))]
    fn fewest_roles(&self, k: usize) -> usize
        ensures { (t : ℕ) → Within t self.now.allowed → count_ones t ≡ k
            → result ≤ count_ones (bit_and t self.now.role_principals) }
    {
        let others = size(self.allowed) - size(self.allowed & self.role_principals);
        k.saturating_sub(others)
    }

    // The least candidate of k members: the fewest role principals first. Where sets of that size may differ in these, it is asked before
    // whether the size has a candidate at all, so that one without costs one test.
    fn of_size(&self, k: usize) -> Option<u32>
        requires { k ≤ most_principals }
        ensures { OfSize self.now k (found_values result) }
    {
        let fewest = self.fewest_roles(k);
        let most = self.most_roles(k);
        let limit = Limit {
            members: k,
            role_principals: k,
        };
        if fewest < most && !self.feasible(limit, 0, 0) {
            return None;
        }
        for j in fewest..=most {
            if let Some(s) = self.search(self.count, k, j, Choice::NOTHING) {
                return Some(s);
            }
        }
        None
    }

    // The least candidate.
    pub fn least(&self) -> Option<u32>
        ensures { Least self.now (found_values result) }
    {
        let limit = Limit {
            members: MOST_PRINCIPALS,
            role_principals: MOST_PRINCIPALS,
        };
        if !self.feasible(limit, 0, 0) {
            return None;
        }
        for k in 0..=self.count {
            if let Some(s) = self.of_size(k) {
                return Some(s);
            }
        }
        None
    }
}
