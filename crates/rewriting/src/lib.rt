// What the program `rewrite` prints: one function from the bytes of its input to the bytes of its output.

#![tactic(auto)]

ghost use Rattle.std.specs.Prelude.{◌≡◌, ◌<◌};
ghost use Rattle.rewriting.specs.Program.{refused_text, program, shown_length, shown};

use arrayvec::ArrayString;

// The longest input that the program takes.
pub const MOST_BYTES: usize = 65536;

// The longest text of a refusal: with a line number of five digits.
const MOST_REFUSED: usize = 16;

// `REFUSED`, the number and the line, each after a space, and 0A. The line number has as many digits as it needs.
fn refusal_text(number: u8, line: usize) -> ArrayString<MOST_REFUSED>
    requires { (number < 10) × (line < 100000) }
    ensures { result.bytes ≡ refused_text number line }
{
    let mut text = ArrayString::new();
    text.push_str("REFUSED ");
    text.push_str(itoa::Buffer::new().format(number));
    text.push_str(" ");
    text.push_str(itoa::Buffer::new().format(line));
    text.push_str("\n");
    text
}

// Puts a text at the start of the buffer, and returns how long it is. Where it does not fit: 0, the buffer untouched.
#[tactic(auto, unfolding(crate::specs::Program::shown_length, crate::specs::Program::shown))]
pub fn show(buffer: &mut [u8], text: &[u8]) -> usize
    ensures { (result ≡ shown_length text.now buffer.old) × (buffer.new ≡ shown text.now buffer.old) }
{
    if buffer.len() < text.len() {
        return 0;
    }
    buffer[..text.len()].copy_from_slice(text);
    text.len()
}

// The output for an input, at the start of the buffer, and its length. Where it does not fit: 0, the buffer untouched.
pub fn rewritten(input: &[u8], output: &mut [u8]) -> usize
    ensures { (result ≡ shown_length (program input.now) output.old)
        × (output.new ≡ shown (program input.now) output.old) }
{
    if MOST_BYTES < input.len() {
        return show(output, b"TOO LONG\n");
    }
    match bundle::load(input) {
        Ok(rules) => bundle::write(&rules, output).unwrap_or(0),
        Err(bad) => {
            let text = refusal_text(u8::from(bad.refusal), bad.line);
            show(output, text.as_bytes())
        }
    }
}
