// One line of a bundle, for a reader of lines of one kind: what stands at an offset, its numbers, what refuses them, the cursor past it.

#![tactic(auto)]

ghost use Rattle.std.specs.Prelude.{◌≡◌, ◌+◌, ◌≤◌, ◌<◌, replicate, set, drop};
ghost use Rattle.common.specs.Lists.{at};
ghost use Rattle.common.specs.Limits.{line_room, most_formulas};
ghost use Rattle.common.specs.RefusalNumbers.{outcome_number};
ghost use Rattle.octets.specs.Line.{frame};
ghost use Rattle.octets.specs.Answers.{RoomFor, HoldsLine};
ghost use Rattle.policy.specs.Table.{code};
ghost use Rattle.policy.specs.Rows.{key};
ghost use Rattle.lines.specs.NextLine.{next_values, next_of, other_refusal, number_at};
ghost use Rattle.lines.specs.Judging.{table_of, size_of, privileges_at, row_at, kind_in, fields_of, height_by, refusal_by};
ghost use Rattle.lines.specs.Judging.{most_line_sum, CursorBound, HeightsLow, moved_past, judged_values, judged_of};

use common::{LINE_ROOM, MOST_FORMULAS, Refusal};
use std::marker::Model;

// ---- the kinds of lines

// The kinds of lines that have a table in the record, by their kind octets.
#[derive(Clone, Copy, PartialEq, Eq)]
pub enum TableKind {
    Users = 0x02,
    Edges = 0x03,
    Formulas = 0x04,
    Demarcations = 0x05,
    Hierarchy = 0x06,
    Principals = 0x07,
    Exclusions = 0x08,
    Prerequisites = 0x09,
    Methods = 0x0A,
}

impl TableKind {
    // In the order of a bundle's lines.
    pub const ALL: [TableKind; 9] = [
        TableKind::Users,
        TableKind::Edges,
        TableKind::Formulas,
        TableKind::Demarcations,
        TableKind::Hierarchy,
        TableKind::Principals,
        TableKind::Exclusions,
        TableKind::Prerequisites,
        TableKind::Methods,
    ];

    // The kind octet.
    pub fn code(self) -> u8
        ensures { result ≡ code (table_of self) }
    {
        self as u8
    }

    // How many octets a line of the kind has.
    pub fn size(self) -> usize
        ensures octets { result ≡ size_of (table_of self) }
        ensures fits { result ≤ line_room }
    {
        match self {
            TableKind::Users | TableKind::Edges | TableKind::Formulas => 6,
            TableKind::Demarcations => 11,
            TableKind::Hierarchy
            | TableKind::Principals
            | TableKind::Exclusions
            | TableKind::Prerequisites => 5,
            TableKind::Methods => 12,
        }
    }
}

// ---- a line's numbers

// A line that was found: where the next line starts, and the plain sum of its octets. These stand in the room that was lent for them.
#[derive(Clone, Copy)]
pub struct Line {
    pub next: usize,
    pub total: usize,
}

// The numbers of a line's body, by its kind.
#[derive(Clone, Copy)]
pub enum Row {
    User { object: u8, roles: u16 },
    Edge { label: u8, source: u8, target: u8 },
    Formula { op: u8, left: u8, right: u8 },
    Demarcation { privileges: u64 },
    Hierarchy { inferior: u8, superior: u8 },
    Principal { formula: u8, demarcation: u8 },
    Exclusion { low: u8, high: u8 },
    Prerequisite { needed: u8, dependent: u8 },
    Method { form: u8, privileges: u64 },
}

// The number that n octets of a line make, from the k-th on, the high octet first: of 2, 4 or 8, where `from_be_bytes` would take three
// functions.
pub fn number_at(octets: &[u8; LINE_ROOM], k: usize, n: usize) -> u64
    requires { (n ≤ 8) × (k + n ≤ line_room) }
    ensures { result ≡ number_at octets.now k n }
{
    let mut value: u64 = 0;
    for octet in &octets[k..k + n] {
        value = value * 256 + u64::from(*octet);
    }
    value
}

// The privileges in a line of so many octets: the eight before its check octet; none in a line too short for so many.
fn privileges_at(octets: &[u8; LINE_ROOM], size: usize) -> u64
    requires { size ≤ line_room }
    ensures { result ≡ privileges_at size octets.now }
{
    if size <= 10 {
        return 0;
    }
    number_at(octets, size - 9, 8)
}

// The numbers of a line of a kind and of so many octets.
fn row_at(kind: TableKind, octets: &[u8; LINE_ROOM], size: usize) -> Row
    requires { size ≤ line_room }
    ensures { result ≡ row_at kind size octets.now }
{
    let [_, _, a, b, c, ..] = *octets;
    match kind {
        TableKind::Users => Row::User {
            object: a,
            roles: u16::from_be_bytes([b, c]),
        },
        TableKind::Edges => Row::Edge {
            label: a,
            source: b,
            target: c,
        },
        TableKind::Formulas => Row::Formula {
            op: a,
            left: b,
            right: c,
        },
        TableKind::Demarcations => Row::Demarcation {
            privileges: privileges_at(octets, size),
        },
        TableKind::Hierarchy => Row::Hierarchy {
            inferior: a,
            superior: b,
        },
        TableKind::Principals => Row::Principal {
            formula: a,
            demarcation: b,
        },
        TableKind::Exclusions => Row::Exclusion { low: a, high: b },
        TableKind::Prerequisites => Row::Prerequisite {
            needed: a,
            dependent: b,
        },
        TableKind::Methods => Row::Method {
            form: a,
            privileges: privileges_at(octets, size),
        },
    }
}

impl Row {
    // The least key that may follow.
    fn key_after(self) -> u32
        ensures { result ≡ key (kind_in self) (fields_of self) + 1 }
    {
        match self {
            Row::User { object, .. } => rows::after_user(object),
            Row::Edge {
                label,
                source,
                target,
            } => rows::after_edge(label, source, target),
            Row::Hierarchy { inferior, superior } => rows::after_pair(inferior, superior),
            Row::Exclusion { low, high } => rows::after_pair(low, high),
            Row::Prerequisite { needed, dependent } => rows::after_pair(needed, dependent),
            Row::Formula { .. }
            | Row::Demarcation { .. }
            | Row::Principal { .. }
            | Row::Method { .. } => 1,
        }
    }
}

// ---- what refuses them

// The heights of the formulas read so far.
#[derive(Drop)]
pub struct Heights {
    of: [u8; MOST_FORMULAS],
}

impl Model for Heights {
    ghost use Rattle.std.specs.Prelude.{ℕ, List};

    ghost Value = { List ℕ };

    ghost view = { λ heights. heights.of };
}

impl Heights {
    // Before the first formula.
    pub fn none() -> Heights
        ensures { result ≡ replicate most_formulas 0 }
    {
        Heights {
            of: [0; MOST_FORMULAS],
        }
    }

    // Keeps the height of a formula.
    pub fn keep(&mut self, formula: usize, height: u8)
        requires { formula < most_formulas }
        ensures { self.new ≡ set self.old formula height }
    {
        self.of[formula] = height;
    }

    // The height of the formula that a line says, from the heights of those before it; 0 for any other line.
    fn height_of(&self, row: Row) -> u8
        requires { HeightsLow (kind_in row) self.now }
        ensures { result ≡ height_by row (at self.now) }
    {
        match row {
            Row::Formula { op, left, right } => rows::formula_height(op, left, right, &self.of),
            _ => 0,
        }
    }
}

// What a line is held to: the row of its kind's table that it would fill, the least key that may stand there,
// and how many objects, formulas, demarcations and principals there are.
#[derive(Clone, Copy)]
pub struct Bounds {
    pub row: usize,
    pub least_key: u32,
    pub objects: u8,
    pub formulas: usize,
    pub demarcations: usize,
    pub principals: usize,
}

impl Bounds {
    // Whether a line is within them, by its numbers and, of a formula, its height.
    fn check(self, height: u8, row: Row) -> Result<(), Refusal>
        ensures { outcome_number result ≡ refusal_by self height row }
    {
        let n = self.row;
        let key = self.least_key;
        match row {
            Row::User { object, .. } => rows::check_user(self.objects, key, object),
            Row::Edge {
                label,
                source,
                target,
            } => rows::check_edge(n, self.objects, key, label, source, target),
            Row::Formula { op, left, right } => rows::check_formula(n, op, left, right, height),
            Row::Demarcation { .. } => rows::check_demarcation(n),
            Row::Hierarchy { inferior, superior } => {
                rows::check_pair(self.demarcations, key, inferior, superior)
            }
            Row::Principal {
                formula,
                demarcation,
            } => rows::check_principal(n, self.formulas, self.demarcations, formula, demarcation),
            Row::Exclusion { low, high } => rows::check_exclusion(self.principals, key, low, high),
            Row::Prerequisite { needed, dependent } => {
                rows::check_pair(self.principals, key, needed, dependent)
            }
            Row::Method { form, .. } => rows::check_method(n, form),
        }
    }
}

// ---- the line at a cursor

// How far loading has come: the offset at which the next line starts, how many lines were taken, the last one's kind, and the plain
// sum of their octets.
#[derive(Clone, Copy)]
pub struct Cursor {
    pub offset: usize,
    pub lines: usize,
    pub last: u8,
    pub sum: usize,
}

impl Cursor {
    // Past a line of a kind: a kind octet, since the head is passed too.
    pub fn past(self, kind: u8, line: Line) -> Cursor
        requires { CursorBound self × (line.total ≤ most_line_sum) }
        ensures { result ≡ moved_past self kind line.next line.total }
    {
        Cursor {
            offset: line.next,
            lines: self.lines + 1,
            last: kind,
            sum: self.sum + line.total,
        }
    }
}

// A line that is taken: its numbers, a formula's height, the least key that may follow, and the cursor past it.
#[derive(Clone, Copy)]
pub struct Taken {
    pub row: Row,
    pub height: u8,
    pub least_key: u32,
    pub cursor: Cursor,
}

// A text, with the table of digits that its lines are read by.
#[derive(Drop)]
pub struct Reader<'a> {
    pub text: &'a [u8],
    digits: [u8; 256],
}

impl<'a> Model for Reader<'a> {
    ghost use Rattle.std.specs.Prelude.{ℕ, List};
    ghost use Rattle.octets.specs.DigitTable.{IsDigitTable};

    ghost Value = { List ℕ };

    ghost view = { λ reader. reader.text.now };

    ghost invariant = { λ reader. IsDigitTable reader.digits };
}

impl<'a> Reader<'a> {
    // Of a text.
    pub fn of(text: &'a [u8]) -> Reader<'a>
        ensures { result ≡ text.now }
    {
        Reader {
            text,
            digits: octets::digit_values(),
        }
    }

    // Refuses a line that is not of a kind and its size (1, 2, 3, or, being of this kind, 4), but not the text's end or a line of
    // another kind. The kind is an octet, since any is looked for: the head's and the end's have no table.
    fn check_other(&self, offset: usize, kind: u8) -> Result<(), Refusal>
        ensures { outcome_number result ≡ other_refusal self.now offset kind }
    {
        if self.text.len() <= offset {
            return Ok(());
        }
        octets::read_line(self.text, offset)?;
        if octets::octet_at(self.text, offset, 1) != kind {
            return Ok(());
        }
        Err(Refusal::WrongKind)
    }

    // The line at an offset, as one of a kind, whose lines have so many octets; these are put into a room for them. None at the text's
    // end, or where it is of another kind.
    pub fn next_line(
        &self,
        offset: usize,
        kind: u8,
        size: usize,
        octets: &mut [u8; LINE_ROOM],
    ) -> Result<Option<Line>, Refusal>
        requires { RoomFor size octets.old }
        ensures line { next_values result ≡ next_of self.now offset kind size }
        ensures octets { HoldsLine size (frame (drop offset self.now)) octets.old octets.new }
    {
        let Some(total) = octets::sized_line(self.text, offset, size, &self.digits, octets) else {
            self.check_other(offset, kind)?;
            return Ok(None);
        };
        if octets[1] != kind {
            return Ok(None);
        }
        Ok(Some(Line {
            next: offset + 2 * size + 1,
            total,
        }))
    }

    // Judges the line at the cursor as one of a kind, whose lines have so many octets. None where there is no further line of that kind.
    pub fn judged_line(
        &self,
        cursor: Cursor,
        kind: TableKind,
        size: usize,
        bounds: Bounds,
        heights: &Heights,
    ) -> Result<Option<Taken>, Refusal>
        requires bound { CursorBound cursor }
        requires size { size ≤ line_room }
        requires low { HeightsLow (table_of kind) heights.now }
        ensures { judged_values result ≡ judged_of self.now cursor kind size bounds (at heights.now) }
    {
        let mut octets = [0; LINE_ROOM];
        let Some(line) = self.next_line(cursor.offset, kind.code(), size, &mut octets)? else {
            return Ok(None);
        };
        let row = row_at(kind, &octets, size);
        let height = heights.height_of(row);
        bounds.check(height, row)?;
        Ok(Some(Taken {
            row,
            height,
            least_key: row.key_after(),
            cursor: cursor.past(kind.code(), line),
        }))
    }
}
