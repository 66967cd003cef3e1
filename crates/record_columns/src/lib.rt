// A record's numbers by column and row: set one by one. The program `record_cases` makes its records by
// this; they need not be such as a bundle loads to.
// A column is two digits: the kind of its lines, and which number of such a line. 30 is an edge's label, 31 its source, 32 its target, A0 a
// method's form. 9 is the count of the lines: 39 that of edges. 10 is the count of objects. B is the memo: B0 its object, B1 its requestor,
// B2 what is known, B3 the values. C is the index: C0 first places, C1 numbers of edges, C2 places. A row past the end of its table counts
// on from the start. The digits are those of the script: an enum of the columns would be read from them by one `match`, and matched again.

#![tactic(auto)]

pub mod print;

use common::{
    LABEL_COUNT, MOST_DEMARCATIONS, MOST_EDGES, MOST_EXCLUSIONS, MOST_FORMULAS, MOST_METHODS,
    MOST_PAIRS, MOST_PRINCIPALS, MOST_USERS,
};
use edge_index::EdgeIndex;
use policy::{Memo, Record};

// ---- numbers set

// Sets a number. A count takes the row for its value, FFFF for the largest number that there is.
pub fn set_number(rules: &mut Record, column: u8, row: usize, value: u8) {
    match column {
        0x10 => rules.objects = (row % 256) as u8,
        0x29 | 0x39 | 0x49 | 0x59 | 0x69 | 0x79 | 0x89 | 0x99 | 0xA9 => {
            let count = if row == 0xFFFF { usize::MAX } else { row };
            set_count(rules, column, count);
        }
        0x21 | 0x50 | 0xA1 => set_wide(rules, column, row, value),
        0xB0..=0xB3 => set_memo(&mut rules.memo, column, row, value),
        0xC0..=0xC2 => set_index(&mut rules.index, column, row, u16::from(value)),
        _ => set_octet(rules, column, row, value),
    }
}

// A column of octets.
fn set_octet(rules: &mut Record, column: u8, row: usize, value: u8) {
    match column {
        0x20 => rules.user_objects[row % MOST_USERS] = value,
        0x30 => rules.edge_labels[row % MOST_EDGES] = value,
        0x31 => rules.edge_sources[row % MOST_EDGES] = value,
        0x32 => rules.edge_targets[row % MOST_EDGES] = value,
        0x40 => rules.formula_ops[row % MOST_FORMULAS] = value,
        0x41 => rules.formula_lefts[row % MOST_FORMULAS] = value,
        0x42 => rules.formula_rights[row % MOST_FORMULAS] = value,
        0x60 => rules.inferiors[row % MOST_PAIRS] = value,
        0x61 => rules.superiors[row % MOST_PAIRS] = value,
        0x70 => rules.principal_formulas[row % MOST_PRINCIPALS] = value,
        0x71 => rules.principal_demarcations[row % MOST_PRINCIPALS] = value,
        0x80 => rules.exclusion_lows[row % MOST_EXCLUSIONS] = value,
        0x81 => rules.exclusion_highs[row % MOST_EXCLUSIONS] = value,
        0x90 => rules.prerequisites[row % MOST_PAIRS] = value,
        0x91 => rules.dependents[row % MOST_PAIRS] = value,
        0xA0 => rules.method_forms[row % MOST_METHODS] = value,
        _ => {}
    }
}

// Roles or privileges.
fn set_wide(rules: &mut Record, column: u8, row: usize, value: u8) {
    match column {
        0x21 => rules.user_roles[row % MOST_USERS] = u16::from(value),
        0x50 => rules.demarcation_privileges[row % MOST_DEMARCATIONS] = u64::from(value),
        _ => rules.method_privileges[row % MOST_METHODS] = u64::from(value),
    }
}

fn set_count(rules: &mut Record, column: u8, count: usize) {
    match column {
        0x29 => rules.user_count = count,
        0x39 => rules.edge_count = count,
        0x49 => rules.formula_count = count,
        0x59 => rules.demarcation_count = count,
        0x69 => rules.hierarchy_count = count,
        0x79 => rules.principal_count = count,
        0x89 => rules.exclusion_count = count,
        0x99 => rules.prerequisite_count = count,
        _ => rules.method_count = count,
    }
}

fn set_memo(memo: &mut Memo, column: u8, row: usize, value: u8) {
    match column {
        0xB0 => memo.object = value,
        0xB1 => memo.requestor = value,
        0xB2 => memo.known[row % MOST_FORMULAS] = value != 0,
        _ => memo.value[row % MOST_FORMULAS] = value != 0,
    }
}

fn set_index(index: &mut EdgeIndex, column: u8, row: usize, value: u16) {
    match column {
        0xC0 => index.firsts[row % LABEL_COUNT] = value,
        0xC1 => index.counts[row % LABEL_COUNT] = value,
        _ => index.places[row % MOST_EDGES] = value,
    }
}

// The index of the full graph: every edge has label 0, and by to, then from, 32 of them stand together.
fn full_index() -> EdgeIndex {
    let mut index = EdgeIndex {
        firsts: [512; LABEL_COUNT],
        counts: [0; LABEL_COUNT],
        places: [0; MOST_EDGES],
    };
    index.firsts[0] = 0;
    index.counts[0] = 512;
    for i in 0..MOST_EDGES {
        index.places[i] = ((i % 32) * 16 + i / 32) as u16;
    }
    index
}

// Gives the record 32 objects and 512 edges of label 0: from each object to each of the first 16.
pub fn set_full_graph(rules: &mut Record) {
    rules.index = full_index();
    rules.objects = 32;
    rules.edge_count = MOST_EDGES;
    rules.edge_labels = [0; MOST_EDGES];
    for i in 0..MOST_EDGES {
        rules.edge_sources[i] = (i / 16) as u8;
        rules.edge_targets[i] = (i % 16) as u8;
    }
}
