// Records made by hand: every public call on records that no loader makes, and on any memo.

#![tactic(auto)]

mod calls;
mod script;

// How many bytes the bundle has; where the cases begin.
const BUNDLE: usize = 382;

const CASES: usize = 715;

// The bundle and the script are read; more than fits is not.
fn main() {
    let mut input = [0; 32768];
    let n = io::read_full(0, &mut input);
    let loaded = bundle::load(&input[..n.min(BUNDLE)]).unwrap_or(policy::blank());
    script::play(&input[..n], CASES, &loaded);
}
