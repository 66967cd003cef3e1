// What each line of a kind's table is held to: the checks that loading and `loadable` share.
// `row` is the line's row in its table, `minimum` the smallest key that may stand there.

#![tactic(auto)]

ghost use Rattle.std.specs.Prelude.{◌≡◌, true, false, not, ◌&&◌, ℕ, max, ◌+◌, ◌<◌, ltb, leb, eqb};
ghost use Rattle.common.specs.Lists.{at};
ghost use Rattle.common.specs.Causes.{first};
ghost use Rattle.common.specs.RefusalNumbers.{outcome_number};
ghost use Rattle.common.specs.Limits.{most_objects, most_edges, most_formulas, most_demarcations, most_principals, most_methods};
ghost use Rattle.rows.specs.Op.{op_of, parts_in_range, height_of, formula_in_range};
ghost use Rattle.rows.specs.Checks.{causes, edge_in_range, pair_in_range, edge_key, pair_key};

use common::{
    GREATEST_HEIGHT, HIGHEST_LABEL, HIGHEST_ROLE, HIGHEST_SLOT, MOST_DEMARCATIONS, MOST_EDGES,
    MOST_FORMULAS, MOST_METHODS, MOST_PRINCIPALS, Refusal,
};

// The first cause that is there: over the limit, out of range, not rising.
pub fn first_cause(over: bool, out: bool, falls: bool) -> Result<(), Refusal>
    ensures { outcome_number result ≡ first (causes over out falls) }
{
    if over {
        return Err(Refusal::OverLimit);
    }
    if out {
        return Err(Refusal::OutOfRange);
    }
    if falls {
        return Err(Refusal::NotRising);
    }
    Ok(())
}

// Kind 01: version 1, and at minimum one object.
pub fn check_head(version: u8, objects: u8) -> Result<(), Refusal>
    ensures { outcome_number result ≡ first (causes false (not (eqb version 1 && (leb 1 objects && leb objects most_objects))) false) }
{
    let fits = (version == 1) & (1 <= objects);
    first_cause(false, !fits, false)
}

// The smallest key that may follow a user, an edge, a pair.
pub fn after_user(object: u8) -> u32
    ensures { result ≡ object + 1 }
{
    u32::from(object) + 1
}

pub fn after_edge(label: u8, source: u8, target: u8) -> u32
    ensures { result ≡ edge_key label source target + 1 }
{
    edge_key(label, source, target) + 1
}

pub fn after_pair(a: u8, b: u8) -> u32
    ensures { result ≡ pair_key a b + 1 }
{
    pair_key(a, b) + 1
}

// Kind 02.
pub fn check_user(objects: u8, minimum: u32, object: u8) -> Result<(), Refusal>
    ensures { outcome_number result ≡ first (causes false (not (ltb object objects)) (ltb object minimum)) }
{
    first_cause(false, !(object < objects), u32::from(object) < minimum)
}

// An edge's key, by which edges rise as triples.
pub fn edge_key(label: u8, source: u8, target: u8) -> u32
    ensures { result ≡ edge_key label source target }
{
    u32::from(label) * 65536 + u32::from(source) * 256 + u32::from(target)
}

// The label is at most 15, and both ends are objects.
pub fn edge_in_range(objects: u8, label: u8, source: u8, target: u8) -> bool
    ensures { result ≡ edge_in_range objects label source target }
{
    (label <= HIGHEST_LABEL) & ((source < objects) & (target < objects))
}

// Kind 03.
pub fn check_edge(
    row: usize,
    objects: u8,
    minimum: u32,
    label: u8,
    source: u8,
    target: u8,
) -> Result<(), Refusal>
    ensures { outcome_number result ≡ first (causes (leb most_edges row) (not (edge_in_range objects label source target))
        (ltb (edge_key label source target) minimum)) }
{
    let fits = edge_in_range(objects, label, source, target);
    let key = edge_key(label, source, target);
    first_cause(MOST_EDGES <= row, !fits, key < minimum)
}

// The parts of a formula: formula numbers below its own, a role, label or slot at most the highest, zero where unused.
pub fn parts_in_range(row: usize, op: u8, a: u8, b: u8) -> bool
    ensures { result ≡ parts_in_range (op_of op) row a b }
{
    match op {
        0..=2 => (a == 0) & (b == 0),
        3 => (a <= HIGHEST_ROLE) & (b == 0),
        4 => (usize::from(a) < row) & (b == 0),
        5..=6 => (usize::from(a) < row) & (usize::from(b) < row),
        7..=8 => (a <= HIGHEST_LABEL) & (usize::from(b) < row),
        9 => (a <= HIGHEST_SLOT) & (usize::from(b) < row),
        10 => (a <= HIGHEST_SLOT) & (b == 0),
        11 => (a <= HIGHEST_SLOT) & (usize::from(b) < row),
        _ => false,
    }
}

// The height of a formula, from the heights of those below it.
pub fn formula_height(op: u8, a: u8, b: u8, heights: &[u8; MOST_FORMULAS]) -> u8
    requires { (g : ℕ) → at heights.now g < 255 }
    ensures { result ≡ height_of (op_of op) a b (at heights.now) }
{
    let x = *heights.get(usize::from(a)).unwrap_or(&0);
    let y = *heights.get(usize::from(b)).unwrap_or(&0);
    match op {
        4 => x + 1,
        5..=6 => x.max(y) + 1,
        7..=9 => y + 1,
        11 => y + 1,
        _ => 0,
    }
}

// Kind 04, of a formula with this height.
pub fn check_formula(row: usize, op: u8, a: u8, b: u8, height: u8) -> Result<(), Refusal>
    ensures { outcome_number result ≡ first (causes (leb most_formulas row) (not (formula_in_range row op a b height)) false) }
{
    let fits = parts_in_range(row, op, a, b) & (height <= GREATEST_HEIGHT);
    first_cause(MOST_FORMULAS <= row, !fits, false)
}

// Kind 05: no number is out of range.
pub fn check_demarcation(row: usize) -> Result<(), Refusal>
    ensures { outcome_number result ≡ first (causes (leb most_demarcations row) false false) }
{
    first_cause(MOST_DEMARCATIONS <= row, false, false)
}

// A pair's key, by which pairs rise.
pub fn pair_key(low: u8, high: u8) -> u32
    ensures { result ≡ pair_key low high }
{
    u32::from(low) * 256 + u32::from(high)
}

// Kinds 06 and 09: two different things, of so many.
pub fn check_pair(things: usize, minimum: u32, a: u8, b: u8) -> Result<(), Refusal>
    ensures { outcome_number result ≡ first (causes false (not (pair_in_range things a b)) (ltb (pair_key a b) minimum)) }
{
    let fits = (usize::from(a) < things) & ((usize::from(b) < things) & !(a == b));
    first_cause(false, !fits, pair_key(a, b) < minimum)
}

// Kind 07.
pub fn check_principal(
    row: usize,
    formulas: usize,
    demarcations: usize,
    formula: u8,
    demarcation: u8,
) -> Result<(), Refusal>
    ensures { outcome_number result ≡ first (causes (leb most_principals row) (not (ltb formula formulas && ltb demarcation demarcations)) false) }
{
    let fits = (usize::from(formula) < formulas) & (usize::from(demarcation) < demarcations);
    first_cause(MOST_PRINCIPALS <= row, !fits, false)
}

// Kind 08.
pub fn check_exclusion(principals: usize, minimum: u32, low: u8, high: u8) -> Result<(), Refusal>
    ensures { outcome_number result ≡ first (causes false (not (ltb low high && ltb high principals)) (ltb (pair_key low high) minimum)) }
{
    let fits = (low < high) & (usize::from(high) < principals);
    first_cause(false, !fits, pair_key(low, high) < minimum)
}

// Kind 0A.
pub fn check_method(row: usize, form: u8) -> Result<(), Refusal>
    ensures { outcome_number result ≡ first (causes (leb most_methods row) (not (leb form 1)) false) }
{
    first_cause(MOST_METHODS <= row, !(form <= 1), false)
}
