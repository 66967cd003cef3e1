// What is printed: characters, yes and no, the flags of a memo.

use common::MOST_FORMULAS;

// The file that is written to: standard output.
const OUT: i32 = 1;

// One character.
pub fn character(c: u8) {
    io::write_all(OUT, &[c]);
}

// A number.
pub fn number(n: u64) {
    io::print_decimal(OUT, n);
}

// Yes or no.
pub fn verdict(yes: bool) {
    io::write_all(OUT, if yes { b"yes" } else { b"no" });
}

// The numbers of the flags that are set, in braces.
pub fn flags(set: &[bool; MOST_FORMULAS]) {
    character(b'{');
    for f in 0..MOST_FORMULAS {
        if set[f] {
            character(b' ');
            number(f as u64);
        }
    }
    io::write_all(OUT, b" }");
}
