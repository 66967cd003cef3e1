// The C interface over a record that the caller owns and lends: it keeps what the calls before left.

ghost use Rattle.std.specs.Prelude.{◌≡◌};
ghost use Rattle.policy.specs.Typed.{Typed};
ghost use Rattle.reading.specs.Loading.{load};
ghost use Rattle.bundle.specs.Writing.{buffer_after};
ghost use Rattle.capi.specs.Lent.{load_value, write_value, Answers};

use crate::{packed, write_value};
use policy::Record;

// Loads a bundle into the caller's record, which a refused bundle leaves blank. Its number and line.
#[unsafe(no_mangle)]
pub extern "C" fn access_load(rules: &mut Record, bundle: &[u8]) -> u64
    ensures { (result ≡ load_value bundle.now) × (rules.new ≡ (load bundle.now).rules) }
{
    match bundle::load(bundle) {
        Ok(loaded) => {
            *rules = loaded;
            packed(common::ACCEPTED, 0)
        }
        Err(bad) => {
            *rules = policy::blank();
            packed(u8::from(bad.refusal), bad.line)
        }
    }
}

// Answers each call in turn on the record that the calls before it left, and leaves the record that the last one left.
// The count of answers.
#[unsafe(no_mangle)]
pub extern "C" fn access_answer(rules: &mut Record, calls: &[u8], answers: &mut [u8]) -> u64
    ensures { Answers rules.old calls.now answers.old result
        rules.new answers.new }
{
    replay::answer_all(rules, calls, answers) as u64
}

// Writes the caller's record as a bundle into `out`. The writer's number and length.
#[unsafe(no_mangle)]
pub extern "C" fn access_write(rules: &Record, out: &mut [u8]) -> u64
    ensures { (result ≡ write_value rules.now out.old)
        × (out.new ≡ buffer_after rules.now out.old) × Typed rules.now }
{
    write_value(rules, out)
}
