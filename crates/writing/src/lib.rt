// Writing lines one after another: each goes into the unwritten rest of the lent buffer.

#![tactic(auto)]

ghost use Rattle.std.specs.Prelude.{◌≡◌, ℕ, List, [], ◌∷◌, ◌+◌, ◌*◌, ◌≤◌, ◌<◌, length};
ghost use Rattle.common.specs.Lists.{table as table_of};
ghost use Rattle.octets.specs.Line.{total, framed};
ghost use Rattle.writing.specs.Drafts.{longest_body, greatest_total, RoomFor, Put, Grown, Gives, lines_of};

// How far writing has come: the offset of the next line, how many lines were written, and the plain sum of their octets.
#[derive(Clone, Copy)]
pub struct Draft {
    pub offset: usize,
    pub lines: usize,
    pub sum: usize,
}

// The plain sum of the octets of a line, the check octet included.
fn line_total(kind: u8, body: &[u8]) -> usize
    requires { length body.now ≤ longest_body }
    ensures { (result ≡ total (framed kind body.now)) × (result ≤ greatest_total) }
{
    let mut sum = body.len() + usize::from(kind);
    for octet in body {
        sum += usize::from(*octet);
    }
    sum + (256 - sum % 256) % 256
}

// Writes one line of a kind, by its octet, into the rest of the buffer, from the draft's offset on.
pub fn put_line(buffer: &mut [u8], from: Draft, kind: u8, body: &[u8]) -> Draft
    requires { (length body.now ≤ longest_body) × RoomFor buffer.old from 1 (2 * length body.now + 7) }
    ensures { Put buffer.old buffer.new from result (framed kind body.now ∷ []) }
{
    let offset = from.offset;
    let length = octets::write_line(&mut buffer[offset..], kind, body);
    let total = line_total(kind, body);
    Draft {
        offset: offset + length,
        lines: from.lines + 1,
        sum: from.sum + total,
    }
}

// The body of a line: an array of octets.
pub trait Body: Copy {
    ghost use Rattle.std.specs.Prelude.{ℕ, List, ◌≡◌, length};

    ghost octets_of: { Self → List ℕ };

    ghost size: { ℕ };

    fn octets(&self) -> &[u8]
        ensures { (result.now ≡ octets_of self.now) × (length result.now ≡ size) };
}

impl<const N: usize> Body for [u8; N] {
    ghost octets_of = { λ body. body };

    ghost size = { N };

    fn octets(&self) -> &[u8] {
        self
    }
}

// The lines of the first `count` rows of a table: all of a kind, with the body that the function gives for each row.
pub fn put_lines<T: Copy, B: Body, F: Fn(T, usize) -> B>(
    buffer: &mut [u8],
    from: Draft,
    kind: u8,
    count: usize,
    table: T,
    body: F,
) -> Draft
    requires short { B.size ≤ longest_body }
    requires callable { (i : ℕ) → i < count → F.pre body table i }
    requires room { RoomFor buffer.old from count (2 * B.size + 7) }
    ensures lines { (bodies : ℕ → List ℕ) → Gives B.octets_of (F.post body table) count bodies
        → Put buffer.old buffer.new from result (table_of count (lines_of kind bodies)) }
    ensures grown { Grown buffer.old buffer.new from result count (2 * B.size + 7) }
{
    let mut draft = from;
    for i in 0..count {
        draft = put_line(buffer, draft, kind, body(table, i).octets());
    }
    draft
}
