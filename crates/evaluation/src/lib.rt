// Formulas, evaluated at one vertex, and on sets of vertices: a table of 256 bools says at which of them a formula is true. At the object,
// and at a vertex that is kept, a formula is evaluated by itself, down to a step that has several edges to go along: where these end is a
// set. A step passes over the edges of its label only: forward in the edges' own order, backward in the order of the index's places.

#![tactic(auto)]

ghost use Rattle.std.specs.Prelude.{◌≡◌, cond, not, ◌≤◌, ◌<◌, eqb};
ghost use Rattle.common.specs.Limits.{most_formulas};
ghost use Rattle.common.specs.Lists.{at};
ghost use Rattle.vertices.specs.Steps.{leads, Among};
ghost use Rattle.vertices.specs.Passes.{edges_along, OfLabel};
ghost use Rattle.formula.specs.Formula.{true_of, true_below, formulas_of, holds};
ghost use Rattle.formula.specs.Evaluation.{slot_in, context_in, formula_at};
ghost use Rattle.formula.specs.Evaluation as spec;

pub mod context;
pub mod indexed;

use common::{MOST_FORMULAS, SLOT_COUNT};
use formula::ContextNumbers;
use formula::request::Request;
use indexed::IndexedRecord;
use vertices::Vertices;
use vertices::pass::{Direction, Ends, Pass};

// ---- at one vertex

// Whether formula f is true at vertex x, if it is below n. Its parts must be below it in turn, so that it ends. A formula that has parts
// has an op from 4 to 9, or 11.
#[cycle(at_slot_connected_at_connective_evaluate_keep_each_scan_edges_step_at_true_at)]
fn true_at(rules: &IndexedRecord<'_>, q: ContextNumbers, n: usize, f: usize, x: u8) -> bool
    requires { n ≤ most_formulas }
    ensures { result ≡ true_below (formulas_of rules.now) (context_in rules.now q) n f x }
{
    if let Some(place) = rules.place_below(q, n, f) {
        return place.has(x);
    }
    let line = rules.line_of(f);
    match line.op {
        0..=6 => connected_at(rules, q, f, x),
        7 => {
            let pass = rules.edges_with(line.left, Direction::Forward);
            step_at(rules, q, &pass, f, x)
        }
        8 => {
            let pass = rules.edges_with(line.left, Direction::Backward);
            step_at(rules, q, &pass, f, x)
        }
        9 => {
            let kept = formula::keeping(q, line.left, x);
            true_at(rules, kept, f, usize::from(line.right), x)
        }
        10..=255 => at_slot(rules, q, f),
    }
}

// Whether formula f is true at x, whose op is 4, 5 or 6: not a, a and b, a or b. The right part is asked only where the left one does not
// decide.
#[cycle(at_slot_connected_at_connective_evaluate_keep_each_scan_edges_step_at_true_at)]
fn connected_at(rules: &IndexedRecord<'_>, q: ContextNumbers, f: usize, x: u8) -> bool
    requires few { f < most_formulas }
    requires low { 4 ≤ at rules.now.formula_ops f }
    requires high { at rules.now.formula_ops f ≤ 6 }
    ensures { result ≡ formula_at (formulas_of rules.now) (context_in rules.now q) f x }
{
    let line = rules.line_of(f);
    let left = true_at(rules, q, f, usize::from(line.left), x);
    match line.op {
        4 => !left,
        5 => left && true_at(rules, q, f, usize::from(line.right), x),
        _ => left || true_at(rules, q, f, usize::from(line.right), x),
    }
}

// Whether an edge of the pass leads from x to a vertex where the right part of formula f is true. A part without parts is looked up at the
// ends of x's edges; another one is evaluated where the only edge ends, or where they all end.
#[cycle(at_slot_connected_at_connective_evaluate_keep_each_scan_edges_step_at_true_at)]
fn step_at(rules: &IndexedRecord<'_>, q: ContextNumbers, pass: &Pass<'_>, f: usize, x: u8) -> bool
    requires few { f < most_formulas }
    requires positions { OfLabel pass.now }
    ensures { let fs = formulas_of rules.now in result ≡ leads (edges_along pass.now) 1 2 pass.now.label
        (true_below fs (context_in rules.now q) f (at fs.rights f)) x }
{
    let right = usize::from(rules.line_of(f).right);
    if let Some(place) = rules.place_below(q, f, right) {
        return pass.leads_to(x, place);
    }
    match pass.only_end(x) {
        Ends::Nowhere => false,
        Ends::Once(y) => true_at(rules, q, f, right, y),
        Ends::Several => {
            let there = pass.reached_from_one(x);
            vertices::has_any(&evaluate(rules, q, f, right, &there))
        }
    }
}

// Whether formula f is true, whose op is 11: its right part is evaluated at the vertex in the slot.
#[cycle(at_slot_connected_at_connective_evaluate_keep_each_scan_edges_step_at_true_at)]
fn at_slot(rules: &IndexedRecord<'_>, q: ContextNumbers, f: usize) -> bool
    requires { f < most_formulas }
    ensures { let fs = formulas_of rules.now in result ≡ true_of (slot_in q (at fs.lefts f))
        (true_below fs (context_in rules.now q) f (at fs.rights f)) }
{
    let line = rules.line_of(f);
    match formula::slot_vertex(q, line.left) {
        Some(v) => true_at(rules, q, f, usize::from(line.right), v),
        None => false,
    }
}

// ---- on sets of vertices

// Of the asked vertices those where formula f is true, if it is below n; else none. As in `true_at`.
#[cycle(at_slot_connected_at_connective_evaluate_keep_each_scan_edges_step_at_true_at)]
fn evaluate(
    rules: &IndexedRecord<'_>,
    q: ContextNumbers,
    n: usize,
    f: usize,
    asked: &Vertices,
) -> Vertices
    requires { n ≤ most_formulas }
    ensures { Among asked.now (true_below (formulas_of rules.now) (context_in rules.now q) n f) result }
{
    if let Some(place) = rules.place_below(q, n, f) {
        return place.among(asked);
    }
    let line = rules.line_of(f);
    match line.op {
        0..=6 => connective(rules, q, f, asked),
        7 => {
            let pass = rules.edges_with(line.left, Direction::Forward);
            scan_edges(rules, q, &pass, f, asked)
        }
        8 => {
            let pass = rules.edges_with(line.left, Direction::Backward);
            scan_edges(rules, q, &pass, f, asked)
        }
        9 => keep_each(rules, q, f, asked),
        10..=255 => vertices::asked_if(asked, at_slot(rules, q, f)),
    }
}

// Of the asked vertices those where formula f is true, whose op is 4, 5 or 6: not a, a and b, a or b.
#[cycle(at_slot_connected_at_connective_evaluate_keep_each_scan_edges_step_at_true_at)]
fn connective(rules: &IndexedRecord<'_>, q: ContextNumbers, f: usize, asked: &Vertices) -> Vertices
    requires few { f < most_formulas }
    requires low { 4 ≤ at rules.now.formula_ops f }
    requires high { at rules.now.formula_ops f ≤ 6 }
    ensures { Among asked.now (formula_at (formulas_of rules.now) (context_in rules.now q) f) result }
{
    let line = rules.line_of(f);
    let right = usize::from(line.right);
    let t = evaluate(rules, q, f, usize::from(line.left), asked);
    match line.op {
        4 => vertices::minus(asked, &t),
        5 => evaluate(rules, q, f, right, &t),
        _ => {
            let u = evaluate(rules, q, f, right, asked);
            vertices::union(&t, &u)
        }
    }
}

// Of the asked vertices those from which an edge of the pass leads to one where the right part of formula f is true. A part that has parts
// itself is asked only where such an edge ends.
#[cycle(at_slot_connected_at_connective_evaluate_keep_each_scan_edges_step_at_true_at)]
fn scan_edges(
    rules: &IndexedRecord<'_>,
    q: ContextNumbers,
    pass: &Pass<'_>,
    f: usize,
    asked: &Vertices,
) -> Vertices
    requires few { f < most_formulas }
    requires positions { OfLabel pass.now }
    ensures { let fs = formulas_of rules.now in Among asked.now (leads (edges_along pass.now) 1 2 pass.now.label
        (true_below fs (context_in rules.now q) f (at fs.rights f))) result }
{
    let right = usize::from(rules.line_of(f).right);
    if let Some(place) = rules.place_below(q, f, right) {
        return pass.starts_to(asked, &place.among(&vertices::all()));
    }
    let there = pass.reached_from(asked);
    let found = evaluate(rules, q, f, right, &there);
    pass.starts_to(asked, &found)
}

// Of the asked vertices those where formula f is true, whose op is 9: the right part is evaluated at each by itself, with that vertex
// kept in the slot. A part that does not read the slot is evaluated at all of them together.
#[cycle(at_slot_connected_at_connective_evaluate_keep_each_scan_edges_step_at_true_at)]
fn keep_each(rules: &IndexedRecord<'_>, q: ContextNumbers, f: usize, asked: &Vertices) -> Vertices
    requires few { f < most_formulas }
    requires op { at rules.now.formula_ops f ≡ 9 }
    ensures { Among asked.now (formula_at (formulas_of rules.now) (context_in rules.now q) f) result }
{
    let line = rules.line_of(f);
    let right = usize::from(line.right);
    if !rules.reads_slot(f, line.right, line.left) {
        return evaluate(rules, q, f, right, asked);
    }
    let mut r = vertices::none();
    for v in 0..=255u8 {
        let i = usize::from(v);
        if asked[i] {
            let kept = formula::keeping(q, line.left, v);
            r[i] = true_at(rules, kept, f, right, v);
        }
    }
    r
}

// ---- at the object

// Whether formula f is true at the object, where the requestor holds the roles.
pub fn true_at_object(
    rules: &IndexedRecord<'_>,
    roles: u16,
    object: u8,
    requestor: u8,
    f: usize,
) -> bool
    ensures { result ≡ spec.true_at_object rules.now roles object requestor f }
{
    let q = ContextNumbers {
        slots: [None; SLOT_COUNT],
        roles,
        object,
        requestor,
    };
    true_at(rules, q, MOST_FORMULAS, f, object)
}

// Whether formula f is true at the request's object.
pub fn holds(request: &Request<'_>, f: usize) -> bool
    requires { f < request.now.rules.formula_count }
    ensures { result ≡ holds request.now.rules f request.now.object request.now.object request.now.requestor }
{
    let rules = IndexedRecord {
        columns: request.columns,
    };
    true_at_object(&rules, request.roles, request.object, request.requestor, f)
}
