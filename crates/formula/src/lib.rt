// Formulas: what one is evaluated for, the slots that it reads, and where a formula without parts is true. The record is lent, so
// that none of its columns is copied.

#![tactic(auto)]

ghost use Rattle.std.specs.Prelude.{◌≡◌, ◌≤◌, ◌<◌};
ghost use Rattle.common.specs.Limits.{most_users, most_formulas};
ghost use Rattle.common.specs.Lists.{at};
ghost use Rattle.common.specs.Sets.{member};
ghost use Rattle.rows.specs.Op.{op_of};
ghost use Rattle.policy.specs.declared.Record as records;
ghost use Rattle.vertices.specs.Steps.{is_in};
ghost use Rattle.formula.specs.Formula.{keep, formulas_of};
ghost use Rattle.formula.specs.Uses.{reads_of, reads_slot};
ghost use Rattle.formula.specs.Requests.{RolesHeld};
ghost use Rattle.formula.specs.Evaluation.{slot_of, slot_in, context_in, PlaceOf, PlaceBelow};

pub mod request;

use common::{HIGHEST_SLOT, MOST_FORMULAS, SLOT_COUNT};
use policy::Record;
use vertices::Place;

// What a formula is evaluated for, beside the record: the vertex in each slot, where it is set, the roles that the requestor holds, the
// object and the requestor.
#[derive(Clone, Copy)]
pub struct ContextNumbers {
    pub slots: [Option<u8>; SLOT_COUNT],
    pub roles: u16,
    pub object: u8,
    pub requestor: u8,
}

// A formula's line: its op, and two numbers whose meaning the op says.
#[derive(Clone, Copy)]
pub struct Line {
    pub op: u8,
    pub left: u8,
    pub right: u8,
}

// The line of formula f.
pub fn line_of(rules: &Record, f: usize) -> Line
    requires { f < most_formulas }
    ensures op { result.op ≡ at rules.now.formula_ops f }
    ensures left { result.left ≡ at rules.now.formula_lefts f }
    ensures right { result.right ≡ at rules.now.formula_rights f }
{
    Line {
        op: rules.formula_ops[f],
        left: rules.formula_lefts[f],
        right: rules.formula_rights[f],
    }
}

// Role a is one of the roles.
fn holds_role(roles: u16, a: u8) -> bool
    ensures { result ≡ member a roles }
{
    roles.unbounded_shr(u32::from(a)) % 2 == 1
}

// ---- slots

// The vertex in slot a, if it is set and there is such a slot.
pub fn slot_vertex(q: ContextNumbers, a: u8) -> Option<u8>
    ensures { slot_of result ≡ slot_in q a }
{
    q.slots.get(usize::from(a)).copied().flatten()
}

// With the vertex v kept in slot a, whatever that held.
pub fn keeping(mut q: ContextNumbers, a: u8, v: u8) -> ContextNumbers
    ensures { (r : records.Record) → context_in r result ≡ keep (context_in r q) a v }
{
    if a <= HIGHEST_SLOT {
        q.slots[usize::from(a)] = Some(v);
    }
    q
}

// Formula g is marked.
fn is_marked(marks: &[bool; MOST_FORMULAS], g: u8) -> bool
    ensures { result ≡ is_in marks.now g }
{
    marks.get(usize::from(g)).copied().unwrap_or(false)
}

// A formula with this line reads slot a, where the formulas that do are marked among those below it.
fn reads_by_parts(line: Line, a: u8, marks: &[bool; MOST_FORMULAS]) -> bool
    ensures { result ≡ reads_of (op_of line.op) line.left line.right (is_in marks.now) a }
{
    let x = is_marked(marks, line.left);
    let y = is_marked(marks, line.right);
    match line.op {
        4 => x,
        5..=6 => x | y,
        7..=8 => y,
        9 => (line.left != a) & y,
        10 => line.left == a,
        11 => (line.left == a) | y,
        _ => false,
    }
}

// Formula f, if it is below n, reads what slot a holds where f is evaluated.
pub fn reads_slot(rules: &Record, n: usize, f: u8, a: u8) -> bool
    requires { n ≤ most_formulas }
    ensures { result ≡ reads_slot (formulas_of rules.now) n f a }
{
    let mut marks = [false; MOST_FORMULAS];
    for i in 0..n {
        marks[i] = reads_by_parts(line_of(rules, i), a, &marks);
    }
    is_marked(&marks, f)
}

// ---- formulas

// Where a formula without parts is true, by its op and its a; nothing of one that has parts. An op above 11 is true nowhere.
fn place_of(q: ContextNumbers, op: u8, left: u8) -> Option<Place>
    ensures { PlaceOf q op left result }
{
    match op {
        0 => Some(Place::Everywhere),
        1 => Some(Place::At(q.requestor)),
        2 => Some(Place::At(q.object)),
        3 => Some(if holds_role(q.roles, left) {
            Place::Everywhere
        } else {
            Place::Nowhere
        }),
        4..=9 => None,
        10 => Some(match slot_vertex(q, left) {
            Some(v) => Place::At(v),
            None => Place::Nowhere,
        }),
        11 => None,
        12..=255 => Some(Place::Nowhere),
    }
}

// Where formula f is true, if it is below n; nowhere if it is not; nothing of one below n that has parts. It is so in every record with
// these ops and left parts, whatever its edges and right parts are.
pub fn place_below(rules: &Record, q: ContextNumbers, n: usize, f: usize) -> Option<Place>
    requires { n ≤ most_formulas }
    ensures { (r : records.Record) → r.formula_ops ≡ rules.now.formula_ops → r.formula_lefts ≡ rules.now.formula_lefts
        → PlaceBelow r q n f result }
{
    if n <= f {
        return Some(Place::Nowhere);
    }
    let line = line_of(rules, f);
    place_of(q, line.op, line.left)
}

// ---- the requestor's roles

// The roles that the requestor holds.
pub fn roles_of(rules: &Record, requestor: u8) -> u16
    requires { rules.now.user_count ≤ most_users }
    ensures { RolesHeld rules.now requestor result }
{
    let mut held = 0;
    for i in 0..rules.user_count {
        if rules.user_objects[i] == requestor {
            held |= rules.user_roles[i];
        }
    }
    held
}
