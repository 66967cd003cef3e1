#![tactic(auto)]

use rewriting::MOST_BYTES;

// Reads a bundle of at most 65,536 bytes on standard input and writes it again by the writer, or says why not.
// One byte more is read, and no more: that tells a longer input.
fn main() {
    let mut input = [0u8; MOST_BYTES + 1];
    let n = io::read_full(0, &mut input);
    let mut output = [0u8; MOST_BYTES];
    let length = rewriting::rewritten(&input[..n], &mut output);
    io::write_all(1, &output[..length]);
}
