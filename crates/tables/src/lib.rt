// Whether loading could have made a table of a record, kind by kind, on the table's lent columns: nothing is copied.

#![tactic(auto)]

ghost use Rattle.std.specs.Prelude.{◌≡◌, true, ◌≤◌, ◌<◌, ◌+◌, ℕ, Bool, ◌&&◌, leb, drop};
ghost use Rattle.closure.specs.Closure.{pairs_of, circular};
ghost use Rattle.common.specs.Limits.{most_principals};
ghost use Rattle.common.specs.Lists.{every, below};
ghost use Rattle.tables.specs.Loads.{minimum_at, users_load, edges_load, formulas_load, demarcations_load, pairs_load};
ghost use Rattle.tables.specs.Loads.{principals_load, exclusions_load, methods_load, relation_loads};

use common::{
    MOST_DEMARCATIONS, MOST_EDGES, MOST_EXCLUSIONS, MOST_FORMULAS, MOST_METHODS, MOST_PAIRS,
    MOST_PRINCIPALS, MOST_USERS,
};

pub mod columns;

// The places of a column from count on hold this value. The bits are joined with `&`, by place: no branch but the loop's end, so that
// many places are compared at a time (a chain of `skip` and `all`, or `fold`, takes ten times as long).
fn filled_from<T: Copy + PartialEq>(column: &[T], count: usize, value: T) -> bool
    ensures { result ≡ every (λ x. T.eq x value) (drop count column.now) }
{
    let mut filled = true;
    for i in count..column.len() {
        filled &= column[i] == value;
    }
    filled
}

// There are no more rows than there is room for, and each passes. The bits are joined likewise.
fn all_fit<F: Fn(usize) -> bool>(room: usize, count: usize, fits: F) -> bool
    requires { (i : ℕ) → i < room → F.pre fits i }
    ensures { (p : ℕ → Bool) → ((i : ℕ) (r : Bool) → i < room → F.post fits i r → r ≡ p i) → result ≡ (leb count room && every p (below count)) }
{
    if room < count {
        return false;
    }
    let mut fit = true;
    for i in 0..count {
        fit &= fits(i);
    }
    fit
}

// The same of rows that rise: each passes beside the smallest key that may stand there, the one after the key of the row before.
fn all_rise<F: Fn(usize, u32) -> bool, N: Fn(usize) -> u32>(
    room: usize,
    count: usize,
    fits: F,
    next: N,
) -> bool
    requires fits { (i m : ℕ) → i < room → F.pre fits i m }
    requires next { (i : ℕ) → i < room → N.pre next i }
    ensures { (p : ℕ → ℕ → Bool) (key : ℕ → ℕ) → ((i m : ℕ) (r : Bool) → i < room → F.post fits i m r → r ≡ p i m)
        → ((i k : ℕ) → i < room → N.post next i k → k ≡ key i + 1)
        → result ≡ (leb count room && every (λ i. p i (minimum_at key i)) (below count)) }
{
    if room < count {
        return false;
    }
    let mut fit = true;
    let mut minimum = 0;
    for i in 0..count {
        fit &= fits(i, minimum);
        minimum = next(i);
    }
    fit
}

// Kind 02, of so many objects.
pub fn users_load(
    objects: u8,
    count: usize,
    users: &[u8; MOST_USERS],
    roles: &[u16; MOST_USERS],
) -> bool
    ensures { result ≡ users_load objects count users.now roles.now }
{
    let fit = all_rise(
        MOST_USERS,
        count,
        |i, minimum| rows::check_user(objects, minimum, users[i]).is_ok(),
        |i| rows::after_user(users[i]),
    );
    fit & filled_from(users, count, 0) & filled_from(roles, count, 0)
}

// Kind 03, of so many objects.
pub fn edges_load(
    objects: u8,
    count: usize,
    labels: &[u8; MOST_EDGES],
    sources: &[u8; MOST_EDGES],
    targets: &[u8; MOST_EDGES],
) -> bool
    ensures { result ≡ edges_load objects count labels.now sources.now targets.now }
{
    let fit = all_rise(
        MOST_EDGES,
        count,
        |i, minimum| {
            rows::check_edge(i, objects, minimum, labels[i], sources[i], targets[i]).is_ok()
        },
        |i| rows::after_edge(labels[i], sources[i], targets[i]),
    );
    fit & filled_from(labels, count, 0)
        & filled_from(sources, count, 0)
        & filled_from(targets, count, 0)
}

// Kind 04. The heights of the formulas gone through are kept beside them.
pub fn formulas_load(
    count: usize,
    ops: &[u8; MOST_FORMULAS],
    lefts: &[u8; MOST_FORMULAS],
    rights: &[u8; MOST_FORMULAS],
) -> bool
    ensures { result ≡ formulas_load count ops.now lefts.now rights.now }
{
    if MOST_FORMULAS < count {
        return false;
    }
    let mut heights = [0; MOST_FORMULAS];
    let mut fit = true;
    for i in 0..count {
        let height = rows::formula_height(ops[i], lefts[i], rights[i], &heights);
        fit &= rows::check_formula(i, ops[i], lefts[i], rights[i], height).is_ok();
        heights[i] = height;
    }
    fit & filled_from(ops, count, 0) & filled_from(lefts, count, 0) & filled_from(rights, count, 0)
}

// Kind 05: no number of a demarcation is out of range, so only the count and the unused places are tested.
pub fn demarcations_load(count: usize, privileges: &[u64; MOST_DEMARCATIONS]) -> bool
    ensures { result ≡ demarcations_load count privileges.now }
{
    count <= MOST_DEMARCATIONS && filled_from(privileges, count, 0)
}

// Kinds 06 and 09: pairs of so many things.
fn pairs_load(
    things: usize,
    count: usize,
    firsts: &[u8; MOST_PAIRS],
    seconds: &[u8; MOST_PAIRS],
) -> bool
    ensures { result ≡ pairs_load things count firsts.now seconds.now }
{
    let fit = all_rise(
        MOST_PAIRS,
        count,
        |i, minimum| rows::check_pair(things, minimum, firsts[i], seconds[i]).is_ok(),
        |i| rows::after_pair(firsts[i], seconds[i]),
    );
    fit & filled_from(firsts, count, 0) & filled_from(seconds, count, 0)
}

// Kind 07, of so many formulas and demarcations.
pub fn principals_load(
    formulas: usize,
    demarcations: usize,
    count: usize,
    grounds: &[u8; MOST_PRINCIPALS],
    ranks: &[u8; MOST_PRINCIPALS],
) -> bool
    ensures { result ≡ principals_load formulas demarcations count grounds.now ranks.now }
{
    let fit = all_fit(MOST_PRINCIPALS, count, |i| {
        rows::check_principal(i, formulas, demarcations, grounds[i], ranks[i]).is_ok()
    });
    fit & filled_from(grounds, count, 0) & filled_from(ranks, count, 0)
}

// Kind 08, of so many principals.
pub fn exclusions_load(
    principals: usize,
    count: usize,
    lows: &[u8; MOST_EXCLUSIONS],
    highs: &[u8; MOST_EXCLUSIONS],
) -> bool
    ensures { result ≡ exclusions_load principals count lows.now highs.now }
{
    let fit = all_rise(
        MOST_EXCLUSIONS,
        count,
        |i, minimum| rows::check_exclusion(principals, minimum, lows[i], highs[i]).is_ok(),
        |i| rows::after_pair(lows[i], highs[i]),
    );
    fit & filled_from(lows, count, 0) & filled_from(highs, count, 0)
}

// Kind 0A.
pub fn methods_load(
    count: usize,
    forms: &[u8; MOST_METHODS],
    privileges: &[u64; MOST_METHODS],
) -> bool
    ensures { result ≡ methods_load count forms.now privileges.now }
{
    let fit = all_fit(
        MOST_METHODS,
        count,
        |i| rows::check_method(i, forms[i]).is_ok(),
    );
    fit & filled_from(forms, count, 0) & filled_from(privileges, count, 0)
}

// Whether the pairs of so many things hold a circle, in a table that loads.
pub fn pairs_circular(
    things: usize,
    count: usize,
    firsts: &[u8; MOST_PAIRS],
    seconds: &[u8; MOST_PAIRS],
) -> bool
    requires { (pairs_load things count firsts.now seconds.now ≡ true) × (things ≤ most_principals) }
    ensures { result ≡ circular (pairs_of count firsts.now seconds.now) }
{
    let relation = closure::related(firsts, seconds, count);
    closure::circular(relation, things)
}

// Kinds 06 and 09: the pairs of so many things load, and hold no circle.
pub fn relation_loads(
    things: usize,
    count: usize,
    firsts: &[u8; MOST_PAIRS],
    seconds: &[u8; MOST_PAIRS],
) -> bool
    requires { things ≤ most_principals }
    ensures { result ≡ relation_loads things count firsts.now seconds.now }
{
    pairs_load(things, count, firsts, seconds) && !pairs_circular(things, count, firsts, seconds)
}
