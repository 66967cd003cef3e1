// Writing a record: the lines of its tables in the order of the kinds, then the end line.

ghost use Rattle.std.specs.Prelude.{◌≡◌, [], ◌∷◌, true, false, ◌<◌, length, MatchResult};
ghost use Rattle.policy.specs.Table.{head, user, edge, formula, demarcation, end, room};
ghost use Rattle.policy.specs.Table.{hierarchy, principal, exclusion, prerequisite, method};
ghost use Rattle.policy.specs.Loadable.{loadable};
ghost use Rattle.writing.specs.Drafts.{RoomFor, Put};
ghost use Rattle.bundle.specs.Written.{written_values};
ghost use Rattle.bundle.specs.Writing.{row_body, line_octets, bundle_of, measured, written, buffer_after};
ghost use Rattle.policy.specs.Typed.{Typed};
ghost use Rattle.bundle.specs.WriterParts.{graph_lines, ground_lines, start, Room};

use crate::NotWritten;
use policy::Record;
use policy::rules::Rules;
use writing::{Draft, put_line, put_lines};

// The length of a bundle: so many bytes for each line.
#[tactic(auto, using(crate::proofs::LengthLaws::few, crate::proofs::LengthLaws::bundle_length_lem))]
fn bundle_length(rules: &Rules) -> usize
    ensures length { result ≡ length (bundle_of rules.now) }
    ensures loads { loadable rules.now ≡ true }
{
    let columns = rules.columns;
    let two = columns.hierarchy_count
        + columns.principal_count
        + columns.exclusion_count
        + columns.prerequisite_count;
    let three = columns.user_count + columns.edge_count + columns.formula_count;
    let wide = 23 * columns.demarcation_count + 25 * columns.method_count;
    11 + 13 * three + 11 * two + wide + 19
}

// The rules of a record, if some bundle loads to it.
fn loadable_rules(record: &Record) -> Result<Rules<'_>, NotWritten>
    ensures rules { MatchResult result
        (λ rules. rules ≡ record.now)
        (λ why. (why ≡ NotWritten.NotLoadable) × (loadable record.now ≡ false)) }
    ensures typed { Typed record.now }
{
    Rules::of(record).ok_or(NotWritten::NotLoadable)
}

// The length that the writer needs, without writing: refused where no bundle loads to the record.
#[tactic(auto, using(crate::proofs::Answers::unmeasured, crate::proofs::Answers::measured_length))]
pub fn measure(rules: &Record) -> Result<usize, NotWritten>
    ensures { (written_values result ≡ measured rules.now) × Typed rules.now }
{
    let rules = loadable_rules(rules)?;
    Ok(bundle_length(&rules))
}

// ---- the bodies of the lines of each kind: that of a row

fn user_body(columns: &Record, i: usize) -> [u8; 3]
    requires { i < room user }
    ensures { result ≡ row_body user i columns.now }
{
    let roles = columns.user_roles[i].to_be_bytes();
    [columns.user_objects[i], roles[0], roles[1]]
}

fn edge_body(columns: &Record, i: usize) -> [u8; 3]
    requires { i < room edge }
    ensures { result ≡ row_body edge i columns.now }
{
    [
        columns.edge_labels[i],
        columns.edge_sources[i],
        columns.edge_targets[i],
    ]
}

fn formula_body(columns: &Record, i: usize) -> [u8; 3]
    requires { i < room formula }
    ensures { result ≡ row_body formula i columns.now }
{
    [
        columns.formula_ops[i],
        columns.formula_lefts[i],
        columns.formula_rights[i],
    ]
}

fn demarcation_body(columns: &Record, i: usize) -> [u8; 8]
    requires { i < room demarcation }
    ensures { result ≡ row_body demarcation i columns.now }
{
    columns.demarcation_privileges[i].to_be_bytes()
}

fn hierarchy_body(columns: &Record, i: usize) -> [u8; 2]
    requires { i < room hierarchy }
    ensures { result ≡ row_body hierarchy i columns.now }
{
    [columns.inferiors[i], columns.superiors[i]]
}

fn principal_body(columns: &Record, i: usize) -> [u8; 2]
    requires { i < room principal }
    ensures { result ≡ row_body principal i columns.now }
{
    [
        columns.principal_formulas[i],
        columns.principal_demarcations[i],
    ]
}

fn exclusion_body(columns: &Record, i: usize) -> [u8; 2]
    requires { i < room exclusion }
    ensures { result ≡ row_body exclusion i columns.now }
{
    [columns.exclusion_lows[i], columns.exclusion_highs[i]]
}

fn prerequisite_body(columns: &Record, i: usize) -> [u8; 2]
    requires { i < room prerequisite }
    ensures { result ≡ row_body prerequisite i columns.now }
{
    [columns.prerequisites[i], columns.dependents[i]]
}

fn method_body(columns: &Record, i: usize) -> [u8; 9]
    requires { i < room method }
    ensures { result ≡ row_body method i columns.now }
{
    let form = columns.method_forms[i];
    let o = columns.method_privileges[i].to_be_bytes();
    [form, o[0], o[1], o[2], o[3], o[4], o[5], o[6], o[7]]
}

// ---- the lines

// The head, at the start of the buffer: the version, and how many objects there are.
fn put_head(buffer: &mut [u8], objects: u8) -> Draft
    requires { RoomFor buffer.old start 1 11 }
    ensures { Put buffer.old buffer.new start result (line_octets head (1 ∷ objects ∷ []) ∷ []) }
{
    let from = Draft {
        offset: 0,
        lines: 0,
        sum: 0,
    };
    put_line(buffer, from, 0x01, &[1, objects])
}

// Kinds 01 to 05, from the start of the buffer on. A draft is numbered by the kind that it comes after.
#[tactic(auto, using(crate::proofs::LengthLaws::few))]
fn put_graph(rules: &Rules, buffer: &mut [u8]) -> Draft
    requires { Room buffer.old start (graph_lines rules.now) }
    ensures { Put buffer.old buffer.new start result (graph_lines rules.now) }
{
    let columns = rules.columns;
    let d1 = put_head(buffer, columns.objects);
    let n = columns.user_count;
    let d2 = put_lines(buffer, d1, 0x02, n, columns, user_body);
    let n = columns.edge_count;
    let d3 = put_lines(buffer, d2, 0x03, n, columns, edge_body);
    let n = columns.formula_count;
    let d4 = put_lines(buffer, d3, 0x04, n, columns, formula_body);
    let n = columns.demarcation_count;
    put_lines(buffer, d4, 0x05, n, columns, demarcation_body)
}

// Kinds 06 to 0A, after those before them.
#[tactic(auto, using(crate::proofs::LengthLaws::few))]
fn put_grounds(rules: &Rules, buffer: &mut [u8], d5: Draft) -> Draft
    requires { Room buffer.old d5 (ground_lines rules.now) }
    ensures { Put buffer.old buffer.new d5 result (ground_lines rules.now) }
{
    let columns = rules.columns;
    let n = columns.hierarchy_count;
    let d6 = put_lines(buffer, d5, 0x06, n, columns, hierarchy_body);
    let n = columns.principal_count;
    let d7 = put_lines(buffer, d6, 0x07, n, columns, principal_body);
    let n = columns.exclusion_count;
    let d8 = put_lines(buffer, d7, 0x08, n, columns, exclusion_body);
    let n = columns.prerequisite_count;
    let d9 = put_lines(buffer, d8, 0x09, n, columns, prerequisite_body);
    let n = columns.method_count;
    put_lines(buffer, d9, 0x0A, n, columns, method_body)
}

// The end line, after all others: the count of the lines, and the plain sum of their octets.
fn put_end(buffer: &mut [u8], from: Draft) -> Draft
    requires { RoomFor buffer.old from 1 19 }
    ensures { Put buffer.old buffer.new from result (line_octets end (from.lines ∷ from.sum ∷ []) ∷ []) }
{
    let [.., c1, c0] = from.lines.to_be_bytes();
    let [.., s3, s2, s1, s0] = from.sum.to_be_bytes();
    put_line(buffer, from, 0xFF, &[c1, c0, s3, s2, s1, s0])
}

// Writes a record's bundle at the start of the buffer, and returns its length. A refusal leaves the buffer.
#[tactic(auto, using(crate::proofs::Answers::unloadable))]
pub fn write(rules: &Record, buffer: &mut [u8]) -> Result<usize, NotWritten>
    ensures answers { written_values result ≡ written rules.now buffer.old }
    ensures buffer { buffer.new ≡ buffer_after rules.now buffer.old }
    ensures typed { Typed rules.now }
{
    let rules = loadable_rules(rules)?;
    let needed = bundle_length(&rules);
    if buffer.len() < needed {
        return Err(NotWritten::ShortBuffer(needed));
    }
    let graph = put_graph(&rules, buffer);
    let grounds = put_grounds(&rules, buffer, graph);
    put_end(buffer, grounds);
    Ok(needed)
}
