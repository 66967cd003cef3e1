// One line of the format: pairs of digits 0-9 and A-F, each pair an octet, ended by one byte 0A.

#![tactic(auto)]

ghost use Rattle.std.specs.Prelude.{◌≡◌, ◌+◌, ◌<◌, length, drop};
ghost use Rattle.octets.specs.Line.{digit_value, frame};
ghost use Rattle.octets.specs.Line as line;
ghost use Rattle.octets.specs.DigitTable.{IsDigitTable};
ghost use Rattle.octets.specs.Answers.{line_values, framed_values, values_at_end};
ghost use Rattle.octets.specs.Answers.{sized_at_end, total_of_size, RoomFor, HoldsLine};
ghost use Rattle.octets.specs.Answers.{pair_octet, octet_at, placed, written_length, written_buffer};

mod digits;

use common::{LINE_ROOM, Refusal};
use digits::{DIGIT_VALUES, NO_DIGIT};

// An accepted line of a text: how many octets it has, the offset at which the next line starts, and the plain sum of the octets.
#[derive(Clone, Copy)]
pub struct FramedLine {
    pub count: usize,
    pub next: usize,
    pub total: usize,
}

// The table of digits, for a reader to look its bytes up in.
pub fn digit_values() -> [u8; 256]
    ensures { IsDigitTable result }
{
    DIGIT_VALUES
}

// What the table has at a byte.
pub fn looked_up(digits: &[u8; 256], c: u8) -> u8
    requires { IsDigitTable digits.now }
    ensures { result ≡ digit_value c }
{
    digits[usize::from(c)]
}

// The value of a digit; 16 where the byte is none.
pub fn digit_value(c: u8) -> u8
    ensures { result ≡ digit_value c }
{
    looked_up(&digit_values(), c)
}

// What a text has from an offset on: nothing past its end.
fn rest_from(text: &[u8], offset: usize) -> &[u8]
    ensures { result.now ≡ drop offset text.now }
{
    text.get(offset..).unwrap_or(&[])
}

// The octet of two digits; none where the pair isn't two bytes that are digits.
fn octet_of(digits: &[u8; 256], pair: &[u8]) -> Option<u8>
    requires { IsDigitTable digits.now }
    ensures { result ≡ pair_octet pair.now }
{
    let [high, low] = *pair else {
        return None;
    };
    let high = looked_up(digits, high);
    let low = looked_up(digits, low);
    if NO_DIGIT <= high || NO_DIGIT <= low {
        return None;
    }
    Some(high * 16 + low)
}

// What a line is at its end, by its count of octets, the first octet, and the sum of all, modulo 256 and plain.
#[tactic(auto, unfolding(crate::specs::Answers::values_at_end))]
fn answer_at_end(
    count: usize,
    first: u8,
    sum: u8,
    next: usize,
    total: usize,
) -> Result<FramedLine, Refusal>
    ensures { line_values result ≡ values_at_end count first sum next total }
{
    if count == 0 {
        return Err(Refusal::WrongCharacters);
    }
    if usize::from(first) + 3 != count {
        return Err(Refusal::WrongLength);
    }
    if sum != 0 {
        return Err(Refusal::WrongSum);
    }
    Ok(FramedLine { count, next, total })
}

// Reads the line that starts at an offset of the text. The octets' running sum wraps, and is compared with zero at the line's end.
// A byte is compared with that end only where it begins no pair of digits.
pub fn read_line(text: &[u8], offset: usize) -> Result<FramedLine, Refusal>
    ensures { line_values result ≡ framed_values offset (frame (drop offset text.now)) }
{
    let rest = rest_from(text, offset);
    let digits = digit_values();
    let mut first: u8 = 0;
    let mut sum: u8 = 0;
    let mut total: usize = 0;
    for (count, pair) in rest.chunks(2).enumerate() {
        let Some(octet) = octet_of(&digits, pair) else {
            if pair[0] == 0x0A {
                return answer_at_end(count, first, sum, offset + 2 * count + 1, total);
            }
            return Err(Refusal::WrongCharacters);
        };
        if count == 0 {
            first = octet;
        }
        sum = sum.wrapping_add(octet);
        total = total.wrapping_add(usize::from(octet));
    }
    Err(Refusal::WrongCharacters)
}

// What a line of a size is at its end, by its first octet and the sum of all, modulo 256 and plain.
fn sized_at_end(size: usize, first: u8, sum: u8, total: usize) -> Option<usize>
    ensures { result ≡ sized_at_end size first sum total }
{
    if usize::from(first) + 3 == size && sum == 0 {
        Some(total)
    } else {
        None
    }
}

// Reads the line at an offset as one of so many octets, and puts them at the start of a room for a line's octets. Each digit is
// looked up once, and whether each was one is asked once, after the last: the mark sets a bit that no digit's value has.
pub fn sized_line(
    text: &[u8],
    offset: usize,
    size: usize,
    digits: &[u8; 256],
    octets: &mut [u8; LINE_ROOM],
) -> Option<usize>
    requires { IsDigitTable digits.now × RoomFor size octets.old }
    ensures total { result ≡ total_of_size size (frame (drop offset text.now)) }
    ensures octets { HoldsLine size (frame (drop offset text.now)) octets.old octets.new }
{
    let rest = rest_from(text, offset);
    let ended = *rest.get(2 * size)? == 0x0A;
    let mut marks: u8 = 0;
    let mut sum: u8 = 0;
    let mut total: usize = 0;
    // By index: over `chunks_exact(2)` the same loop was up to twice as slow.
    for n in 0..size {
        let high = looked_up(digits, rest[2 * n]);
        let low = looked_up(digits, rest[2 * n + 1]);
        marks |= high | low;
        let value = high.wrapping_mul(16).wrapping_add(low);
        octets[n] = value;
        sum = sum.wrapping_add(value);
        total += usize::from(value);
    }
    if NO_DIGIT <= marks || !ended {
        return None;
    }
    sized_at_end(size, octets[0], sum, total)
}

// The k-th octet of the line that starts at an offset, which `read_line` accepted; 0 where no two digits stand there.
pub fn octet_at(text: &[u8], offset: usize, k: usize) -> u8
    ensures { result ≡ octet_at (drop offset text.now) k }
{
    let (pairs, _) = rest_from(text, offset).as_chunks::<2>();
    let Some(pair) = pairs.get(k) else {
        return 0;
    };
    octet_of(&digit_values(), pair).unwrap_or(0)
}

// The digit of a value below 16.
fn digit(d: u8) -> u8
    requires { d < 16 }
    ensures { result ≡ line.digit d }
{
    if d < 10 { b'0' + d } else { b'A' + (d - 10) }
}

// Puts the two digits of an octet at an offset of the buffer.
fn put_octet(buffer: &mut [u8], offset: usize, octet: u8)
    requires { offset + 1 < length buffer.old }
    ensures { buffer.new ≡ placed buffer.old offset octet }
{
    buffer[offset] = digit(octet / 16);
    buffer[offset + 1] = digit(octet % 16);
}

// Writes one line at the start of the buffer, the unwritten rest of a longer one: length, kind, body, check octet, 0A.
// Returns how many bytes that is. A body of more than 255 octets or too short a buffer gives 0, the buffer untouched.
pub fn write_line(buffer: &mut [u8], kind: u8, body: &[u8]) -> usize
    ensures length { result ≡ written_length kind body.now buffer.old }
    ensures buffer { buffer.new ≡ written_buffer kind body.now buffer.old }
{
    let Ok(length) = u8::try_from(body.len()) else {
        return 0;
    };
    let needed = 2 * body.len() + 7;
    if buffer.len() < needed {
        return 0;
    }
    put_octet(buffer, 0, length);
    put_octet(buffer, 2, kind);
    let mut sum = length.wrapping_add(kind);
    for (k, octet) in body.iter().enumerate() {
        put_octet(buffer, 2 * k + 4, *octet);
        sum = sum.wrapping_add(*octet);
    }
    put_octet(buffer, needed - 3, sum.wrapping_neg());
    buffer[needed - 1] = 0x0A;
    needed
}
