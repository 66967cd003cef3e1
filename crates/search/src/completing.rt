// Whether some candidate holds the chosen principals: what lets the search turn back early.

ghost use Rattle.std.specs.Prelude.{◌≡◌, false, ◌<◌};
ghost use Rattle.common.specs.Limits.{most_principals};
ghost use Rattle.common.specs.Sets.{Within};
ghost use Rattle.search.specs.Steps.{MetBy, ConflictFree, NoneHolds, Asks};

use crate::candidates::meets;
use crate::sets::{add, apart, has, size, within};
use crate::{Limit, Masks};
use common::MOST_PRINCIPALS;

impl Masks {
    // False only where some member of s is not allowed, or excludes another.
    fn allowed_together(&self, s: u32) -> bool
        ensures { result ≡ false → Within s self.now.allowed → ConflictFree self.now s → ⊥ }
    {
        within(s, self.allowed) && (0..self.count).all(|p| !has(s, p) || apart(s, self.excludes[p]))
    }

    // False only where no candidate within the limit holds s and none of barred: s is too large, barred, not allowed or in conflict.
    fn admissible(&self, limit: Limit, s: u32, barred: u32) -> bool
        ensures { result ≡ false → NoneHolds self.now limit s barred }
    {
        if limit.members < size(s) {
            return false;
        }
        if limit.role_principals < size(s & self.role_principals) {
            return false;
        }
        apart(s, barred) && self.allowed_together(s)
    }

    // Of the wanted privileges that are not granted, one that fewest principals can give; eight givers and more are taken for at least
    // four. Any answer will do.
    fn rarest(&self, chosen: u32, granted: u64, barred: u32) -> u64 {
        let free = self.allowed & !barred;
        // How many can give each privilege, in binary.
        let mut ones = 0;
        let mut twos = 0;
        let mut fours = 0;
        for p in 0..self.count {
            let given = self.open_grants(free, chosen, p);
            let two = ones & given;
            fours |= twos & two;
            twos ^= two;
            ones ^= given;
        }
        let unmet = self.wanted & !granted;
        lowest(outside(outside(outside(unmet, fours), twos), ones))
    }

    // What p gives, where p and those it needs are free, and it excludes none of these and of the chosen ones.
    fn open_grants(&self, free: u32, chosen: u32, p: usize) -> u64
        requires { p < most_principals }
    {
        let needs = self.needs[p];
        if has(free, p) && within(needs, free) && apart(chosen | needs, self.excludes[p]) {
            self.grants[p]
        } else {
            0
        }
    }

    // Privileges of which every candidate has a member that gives some, where those granted do not meet the guard.
    #[tactic(auto, using(crate::proofs::Prunes::asks_part, crate::proofs::Prunes::asks_all))]
    fn asked(&self, chosen: u32, granted: u64, barred: u32) -> u64
        requires { MetBy self.now.every self.now.wanted granted → ⊥ }
        ensures { Asks self.now result }
    {
        if self.every {
            let x = self.wanted & self.rarest(chosen, granted, barred);
            if x != 0 {
                return x;
            }
        }
        self.wanted
    }

    // False only where no candidate within the limit holds the chosen ones and none of barred. Where the guard is not met and there is no
    // room for one more member, no giver is tried. A giver that is no use is barred when the next is tried.
    fn possible(&self, limit: Limit, depth: usize, chosen: u32, mut barred: u32) -> bool
        ensures { result ≡ false → NoneHolds self.now limit chosen barred }
    {
        let granted = self.granted_by(chosen);
        if meets(self.every, self.wanted, granted) {
            return true;
        }
        if limit.members <= size(chosen) {
            return false;
        }
        if depth == 0 {
            return true;
        }
        let x = self.asked(chosen, granted, barred);
        for giver in 0..self.count {
            if meets(false, x, self.grants[giver]) {
                let grown = add(chosen, giver) | self.needs[giver];
                if self.admissible(limit, grown, barred)
                    && self.possible(limit, depth - 1, grown, barred)
                {
                    return true;
                }
                barred = add(barred, giver);
            }
        }
        false
    }

    // False only where no candidate within the limit holds s and none of barred.
    pub(crate) fn feasible(&self, limit: Limit, s: u32, barred: u32) -> bool
        ensures { result ≡ false → NoneHolds self.now limit s barred }
    {
        self.admissible(limit, s, barred) && self.possible(limit, MOST_PRINCIPALS, s, barred)
    }
}

// The members of x that are not in y, or x where all are.
fn outside(x: u64, y: u64) -> u64 {
    let rest = x & !y;
    if rest != 0 { rest } else { x }
}

// The lowest member alone.
fn lowest(x: u64) -> u64 {
    x & x.wrapping_neg()
}
