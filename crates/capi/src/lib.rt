// The C interface: slices are a pointer and a length; a number and a value come back in one number, number · 2^32 + value.
// The functions here keep nothing between calls; those of `lent` keep a record that the caller owns.

#![tactic(auto)]

ghost use Rattle.std.specs.Prelude.{◌≡◌};
ghost use Rattle.policy.specs.Typed.{Typed};
ghost use Rattle.reading.specs.Loading.{load};
ghost use Rattle.bundle.specs.Writing.{buffer_after};
ghost use Rattle.capi.specs.Interface.{rewrite_value, rewrite_buffer, replay_value, replay_buffer};
ghost use Rattle.capi.specs.Interface as interface;
ghost use Rattle.capi.specs.Lent.{write_value};

use bundle::NotWritten;
use common::Refusal;
use policy::Record;

pub mod lent;

// Values are below this.
const VALUES: u64 = 1 << 32;

// number · 2^32 + value.
fn packed(number: u8, value: usize) -> u64
    ensures { result ≡ interface.packed number value }
{
    u64::from(number) * VALUES + value as u64 % VALUES
}

// Writes the record as a bundle: the writer's number and length.
fn write_value(rules: &Record, out: &mut [u8]) -> u64
    ensures { (result ≡ write_value rules.now out.old) × (out.new ≡ buffer_after rules.now out.old) × Typed rules.now }
{
    match bundle::write(rules, out) {
        Ok(length) => packed(common::ACCEPTED, length),
        Err(NotWritten::NotLoadable) => packed(u8::from(Refusal::NotLoadable), 0),
        Err(NotWritten::ShortBuffer(needed)) => packed(u8::from(Refusal::ShortBuffer), needed),
    }
}

// Loads a bundle and writes it again into `out`. A refused bundle: its number and line. Else the writer's number and length.
#[unsafe(no_mangle)]
#[tactic(auto, unfolding(crate::specs::Interface::rewrite_value, crate::specs::Interface::rewrite_buffer))]
pub extern "C" fn access_rewrite(bundle: &[u8], out: &mut [u8]) -> u64
    ensures { (result ≡ rewrite_value (load bundle.now) out.old)
        × (out.new ≡ rewrite_buffer (load bundle.now) out.old) }
{
    match bundle::load(bundle) {
        Ok(rules) => write_value(&rules, out),
        Err(bad) => packed(u8::from(bad.refusal), bad.line),
    }
}

// Loads a bundle, then answers each call in turn on the record that the calls before it left. A refused bundle: its number, and no answers.
// Else the count of answers.
#[unsafe(no_mangle)]
#[tactic(auto, unfolding(crate::specs::Interface::replay_value, crate::specs::Interface::replay_buffer))]
pub extern "C" fn access_replay(bundle: &[u8], calls: &[u8], answers: &mut [u8]) -> u64
    ensures { (result ≡ replay_value (load bundle.now) calls.now answers.old)
        × (answers.new ≡ replay_buffer (load bundle.now) calls.now answers.old) }
{
    match bundle::load(bundle) {
        Ok(rules) => packed(common::ACCEPTED, replay::replay(rules, calls, answers)),
        Err(bad) => packed(u8::from(bad.refusal), 0),
    }
}
