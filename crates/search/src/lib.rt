// The least consistent set of principals that meets a guard. A set is a number: principal p is a member where bit p is set.
//
// Sets are gone through by size, within a size by how many role principals they have, and within these by number: from the highest
// principal down, without it before with it.
// What cannot be completed is not entered: `possible` looks for a set that can, by way of the givers of the wanted privilege
// that has fewest of them, whatever their numbers. So a refusal costs no more than a grant.

#![tactic(auto)]

ghost use Rattle.std.specs.Prelude.{◌≤◌};
ghost use Rattle.common.specs.Limits.{most_principals};

use common::MOST_PRINCIPALS;

mod candidates;
mod completing;
mod least;
mod sets;

pub use candidates::{gathered, meets};
pub use sets::{add, has};

// The constraints and privileges of each principal, the principals that are allowed, those that are role principals, and the guard.
// A column of numbers for each, since `gathered` goes through the privileges of demarcations by the same code.
#[derive(Clone, Copy)]
pub struct Masks {
    pub count: usize,
    pub allowed: u32,
    // The principals that p excludes, and those that p needs.
    pub excludes: [u32; MOST_PRINCIPALS],
    pub needs: [u32; MOST_PRINCIPALS],
    // The privileges that p has.
    pub grants: [u64; MOST_PRINCIPALS],
    // The role principals.
    pub role_principals: u32,
    // The guard: every wanted privilege, or at least one. The two are fields by themselves, as proofs of other crates name them.
    pub every: bool,
    pub wanted: u64,
    pub ghost few: { count ≤ most_principals },
}

// How many members a set may have, and how many role principals.
#[derive(Clone, Copy)]
struct Limit {
    members: usize,
    role_principals: usize,
}

// What the search has decided so far: the principals chosen; those that every candidate with these holds; those passed by.
#[derive(Clone, Copy)]
struct Choice {
    chosen: u32,
    needed: u32,
    barred: u32,
}
