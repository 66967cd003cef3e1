// Loading a bundle: the lines of every kind, one kind after another, and the end line.

#![tactic(auto)]

ghost use Rattle.std.specs.Prelude.{◌≡◌, ◌+◌, ◌≤◌, Ok};
ghost use Rattle.common.specs.Limits.{most_lines};
ghost use Rattle.policy.specs.Table.{end, indexed};
ghost use Rattle.reading.specs.Loaded.{loaded_values};
ghost use Rattle.reading.specs.Loading as loading;
ghost use Rattle.reading.specs.Stages.{loaded_from, ended_at, CirclesReady, Ready};

use common::{LINE_ROOM, Refusal};
use edge_index::EdgeIndex;
use edge_index::edges::Edges;
use lines::{Reader, TableKind, number_at};
use policy::Record;
use policy::loadable::has_circles;
use reading::{BadLine, Stage, read_head, read_kind};

// The record with the index of its edges.
fn with_index(mut rules: Record) -> Record
    requires { CirclesReady rules }
    ensures { result ≡ indexed rules }
{
    let edges = Edges {
        count: rules.edge_count,
        labels: &rules.edge_labels,
        sources: &rules.edge_sources,
        targets: &rules.edge_targets,
    };
    let index = EdgeIndex::of(&edges);
    rules.index = index;
    rules
}

// After the end line: nothing more may stand in the text, and neither the hierarchy nor the prerequisites may hold a circle.
// Then the index is built.
fn ended(text: &[u8], offset: usize, lines: usize, rules: Record) -> Result<Record, BadLine>
    requires { (lines ≤ most_lines + 1) × CirclesReady rules }
    ensures { loaded_values result ≡ ended_at text.now offset lines rules }
{
    let line = lines + 1;
    if offset < text.len() {
        octets::read_line(text, offset).map_err(move |refusal| BadLine { refusal, line })?;
        return Err(BadLine {
            refusal: Refusal::WrongKind,
            line,
        });
    }
    if has_circles(&rules) {
        return Err(BadLine {
            refusal: Refusal::Circle,
            line: lines,
        });
    }
    Ok(with_index(rules))
}

// The end line, where there is one.
fn finish(reader: &Reader, from: Stage) -> Result<Record, BadLine>
    requires { Ready reader.now end from }
    ensures { loaded_values result ≡ loaded_from reader.now (Ok from) }
{
    let cursor = from.cursor;
    let line = cursor.lines + 1;
    let bad = move |refusal| BadLine { refusal, line };
    if reader.text.len() <= cursor.offset {
        return Err(bad(Refusal::WrongEnd));
    }
    let mut octets = [0; LINE_ROOM];
    let Some(last) = reader
        .next_line(cursor.offset, 0xFF, 9, &mut octets)
        .map_err(bad)?
    else {
        return Err(bad(Refusal::WrongKind));
    };
    let count = number_at(&octets, 2, 2);
    let sum = number_at(&octets, 4, 4);
    if count != cursor.lines as u64 || sum != cursor.sum as u64 {
        return Err(bad(Refusal::WrongEnd));
    }
    ended(reader.text, last.next, line, from.rules)
}

// Loads a bundle: the head, the lines of the kinds in their order, and the end line.
pub fn load(text: &[u8]) -> Result<Record, BadLine>
    ensures { loaded_values result ≡ loading.load text.now }
{
    if text.is_empty() {
        return Err(BadLine {
            refusal: Refusal::WrongEnd,
            line: 1,
        });
    }
    let reader = Reader::of(text);
    let mut stage = read_head(&reader)?;
    for kind in TableKind::ALL {
        stage = read_kind(&reader, kind, stage)?;
    }
    finish(&reader, stage)
}
