// The policy record of document 01, the test whether some bundle loads to it, and the edits of its edges.

#![tactic(auto)]

ghost use Rattle.std.specs.Prelude.{◌≡◌};
ghost use Rattle.policy.specs.Table as table;

use common::{
    LABEL_COUNT, MOST_DEMARCATIONS, MOST_EDGES, MOST_EXCLUSIONS, MOST_FORMULAS, MOST_METHODS,
    MOST_PAIRS, MOST_PRINCIPALS, MOST_USERS, Refusal,
};
use edge_index::EdgeIndex;

mod edges;
pub mod edits;
pub mod loadable;
pub mod rules;

// For one pair (object, requestor): which formulas have been evaluated, and what they came to.
#[derive(Clone, Copy, PartialEq, Eq)]
#[repr(C)]
pub struct Memo {
    pub object: u8,
    pub requestor: u8,
    pub known: [bool; MOST_FORMULAS],
    pub value: [bool; MOST_FORMULAS],
}

// The rules of a bundle. Every kind of line is a table: a count, and a column for each number of the line's body.
// Unused places are zero in a record that was loaded; one built by hand may hold anything.
#[derive(Clone, Copy, PartialEq, Eq)]
#[repr(C)]
pub struct Record {
    // Objects are 0 to objects - 1.
    pub objects: u8,
    // Kind 02: object, roles (role r has weight 2^r). Rising by object.
    pub user_count: usize,
    pub user_objects: [u8; MOST_USERS],
    pub user_roles: [u16; MOST_USERS],
    // Kind 03: label, from, to. Rising as a triple.
    pub edge_count: usize,
    pub edge_labels: [u8; MOST_EDGES],
    pub edge_sources: [u8; MOST_EDGES],
    pub edge_targets: [u8; MOST_EDGES],
    // Kind 04: op, a, b.
    pub formula_count: usize,
    pub formula_ops: [u8; MOST_FORMULAS],
    pub formula_lefts: [u8; MOST_FORMULAS],
    pub formula_rights: [u8; MOST_FORMULAS],
    // Kind 05: privileges (privilege k has weight 2^k).
    pub demarcation_count: usize,
    pub demarcation_privileges: [u64; MOST_DEMARCATIONS],
    // Kind 06: inferior, superior demarcation. Rising as a pair.
    pub hierarchy_count: usize,
    pub inferiors: [u8; MOST_PAIRS],
    pub superiors: [u8; MOST_PAIRS],
    // Kind 07: formula, demarcation.
    pub principal_count: usize,
    pub principal_formulas: [u8; MOST_PRINCIPALS],
    pub principal_demarcations: [u8; MOST_PRINCIPALS],
    // Kind 08: two principals, the lower first. Rising as a pair.
    pub exclusion_count: usize,
    pub exclusion_lows: [u8; MOST_EXCLUSIONS],
    pub exclusion_highs: [u8; MOST_EXCLUSIONS],
    // Kind 09: the second principal needs the first. Rising as a pair.
    pub prerequisite_count: usize,
    pub prerequisites: [u8; MOST_PAIRS],
    pub dependents: [u8; MOST_PAIRS],
    // Kind 0A: form (0 one-of, 1 all-of), privileges.
    pub method_count: usize,
    pub method_forms: [u8; MOST_METHODS],
    pub method_privileges: [u64; MOST_METHODS],
    // The edges by label, and by label, to, from.
    pub index: EdgeIndex,
    // What earlier questions evaluated.
    pub memo: Memo,
}

// What an edit answers: whether it is refused, and the record.
#[derive(Clone, Copy)]
pub struct Edited {
    pub outcome: Result<(), Refusal>,
    pub rules: Record,
}

// A memo that knows nothing, for the pair (object, requestor).
pub fn emptied(object: u8, requestor: u8) -> Memo
    ensures { result ≡ table.emptied object requestor }
{
    Memo {
        object,
        requestor,
        known: [false; MOST_FORMULAS],
        value: [false; MOST_FORMULAS],
    }
}

// The index of no edges.
fn no_index() -> EdgeIndex
    ensures { result ≡ table.no_index }
{
    EdgeIndex {
        firsts: [0; LABEL_COUNT],
        counts: [0; LABEL_COUNT],
        places: [0; MOST_EDGES],
    }
}

// The blank record: one object and nothing else.
pub fn blank() -> Record
    ensures { result ≡ table.blank }
{
    Record {
        objects: 1,
        user_count: 0,
        user_objects: [0; MOST_USERS],
        user_roles: [0; MOST_USERS],
        edge_count: 0,
        edge_labels: [0; MOST_EDGES],
        edge_sources: [0; MOST_EDGES],
        edge_targets: [0; MOST_EDGES],
        formula_count: 0,
        formula_ops: [0; MOST_FORMULAS],
        formula_lefts: [0; MOST_FORMULAS],
        formula_rights: [0; MOST_FORMULAS],
        demarcation_count: 0,
        demarcation_privileges: [0; MOST_DEMARCATIONS],
        hierarchy_count: 0,
        inferiors: [0; MOST_PAIRS],
        superiors: [0; MOST_PAIRS],
        principal_count: 0,
        principal_formulas: [0; MOST_PRINCIPALS],
        principal_demarcations: [0; MOST_PRINCIPALS],
        exclusion_count: 0,
        exclusion_lows: [0; MOST_EXCLUSIONS],
        exclusion_highs: [0; MOST_EXCLUSIONS],
        prerequisite_count: 0,
        prerequisites: [0; MOST_PAIRS],
        dependents: [0; MOST_PAIRS],
        method_count: 0,
        method_forms: [0; MOST_METHODS],
        method_privileges: [0; MOST_METHODS],
        index: no_index(),
        memo: emptied(0, 0),
    }
}
