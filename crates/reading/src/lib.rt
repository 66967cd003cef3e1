// Reading a bundle: the first line, and one reader for the lines of any kind that has a table.

#![tactic(auto)]

ghost use Rattle.std.specs.Prelude.{◌≡◌, ◌<◌, length};
ghost use Rattle.policy.specs.Table.{count, room, appended};
ghost use Rattle.lines.specs.Judging.{table_of, kind_in, fields_of};
ghost use Rattle.reading.specs.Stages.{Ready, Starts, Reads};

use common::{LINE_ROOM, Refusal};
use lines::{Bounds, Cursor, Heights, Reader, Row, TableKind};
use policy::Record;

// Why a bundle is not loaded, and its line: the one that is refused, or one past the last where the end line is missing.
#[derive(Clone, Copy)]
pub struct BadLine {
    pub refusal: Refusal,
    pub line: usize,
}

// How far loading has come, and what the lines read so far say.
#[derive(Clone, Copy)]
pub struct Stage {
    pub cursor: Cursor,
    pub rules: Record,
}

// Kind 01, the first line.
pub fn read_head(reader: &Reader) -> Result<Stage, BadLine>
    requires { 0 < length reader.now }
    ensures { Starts reader.now result }
{
    let bad = |refusal| BadLine { refusal, line: 1 };
    let mut octets = [0; LINE_ROOM];
    let Some(line) = reader.next_line(0, 0x01, 5, &mut octets).map_err(bad)? else {
        return Err(bad(Refusal::WrongKind));
    };
    let version = octets[2];
    let objects = octets[3];
    rows::check_head(version, objects).map_err(bad)?;
    let top = Cursor {
        offset: 0,
        lines: 0,
        last: 0,
        sum: 0,
    };
    let mut rules = policy::blank();
    rules.objects = objects;
    Ok(Stage {
        cursor: top.past(0x01, line),
        rules,
    })
}

// Appends a line to its table. An arm for each table: the record is a flat struct of columns, so that this is longer than other
// functions.
#[tactic(auto, unfolding(policy::specs::Table::appended))]
fn append(rules: &mut Record, row: Row)
    requires { count (kind_in row) rules.old < room (kind_in row) }
    ensures { rules.new ≡ appended (kind_in row) rules.old (fields_of row) }
{
    match row {
        Row::User { object, roles } => {
            let i = rules.user_count;
            rules.user_objects[i] = object;
            rules.user_roles[i] = roles;
            rules.user_count = i + 1;
        }
        Row::Edge {
            label,
            source,
            target,
        } => {
            let i = rules.edge_count;
            rules.edge_labels[i] = label;
            rules.edge_sources[i] = source;
            rules.edge_targets[i] = target;
            rules.edge_count = i + 1;
        }
        Row::Formula { op, left, right } => {
            let i = rules.formula_count;
            rules.formula_ops[i] = op;
            rules.formula_lefts[i] = left;
            rules.formula_rights[i] = right;
            rules.formula_count = i + 1;
        }
        Row::Demarcation { privileges } => {
            let i = rules.demarcation_count;
            rules.demarcation_privileges[i] = privileges;
            rules.demarcation_count = i + 1;
        }
        Row::Hierarchy { inferior, superior } => {
            let i = rules.hierarchy_count;
            rules.inferiors[i] = inferior;
            rules.superiors[i] = superior;
            rules.hierarchy_count = i + 1;
        }
        Row::Principal {
            formula,
            demarcation,
        } => {
            let i = rules.principal_count;
            rules.principal_formulas[i] = formula;
            rules.principal_demarcations[i] = demarcation;
            rules.principal_count = i + 1;
        }
        Row::Exclusion { low, high } => {
            let i = rules.exclusion_count;
            rules.exclusion_lows[i] = low;
            rules.exclusion_highs[i] = high;
            rules.exclusion_count = i + 1;
        }
        Row::Prerequisite { needed, dependent } => {
            let i = rules.prerequisite_count;
            rules.prerequisites[i] = needed;
            rules.dependents[i] = dependent;
            rules.prerequisite_count = i + 1;
        }
        Row::Method { form, privileges } => {
            let i = rules.method_count;
            rules.method_forms[i] = form;
            rules.method_privileges[i] = privileges;
            rules.method_count = i + 1;
        }
    }
}

// Takes the lines of a kind, from the stage that the reader of the kind before left. The heights of the formulas read so far are kept
// beside them.
pub fn read_kind(reader: &Reader, kind: TableKind, from: Stage) -> Result<Stage, BadLine>
    requires { Ready reader.now (table_of kind) from }
    ensures { Reads reader.now (table_of kind) from result }
{
    let mut cursor = from.cursor;
    let mut rules = from.rules;
    let mut row = 0;
    let mut least_key = 0;
    let mut heights = Heights::none();
    // A `loop`: how many lines the kind has shows only at the line after them.
    loop {
        let bounds = Bounds {
            row,
            least_key,
            objects: rules.objects,
            formulas: rules.formula_count,
            demarcations: rules.demarcation_count,
            principals: rules.principal_count,
        };
        let line = cursor.lines + 1;
        let Some(taken) = reader
            .judged_line(cursor, kind, kind.size(), bounds, &heights)
            .map_err(move |refusal| BadLine { refusal, line })?
        else {
            return Ok(Stage { cursor, rules });
        };
        if kind == TableKind::Formulas {
            heights.keep(row, taken.height);
        }
        append(&mut rules, taken.row);
        cursor = taken.cursor;
        least_key = taken.least_key;
        row += 1;
    }
}
