// A record to which some bundle loads, lent. What is known of such a record is known of each value of this type, so that no function asks
// for it.

ghost use Rattle.std.specs.Prelude.{◌≡◌, false, MatchOption};
ghost use Rattle.policy.specs.Loadable.{loadable};
ghost use Rattle.policy.specs.Typed.{Typed};

use crate::{Record, loadable};
use std::marker::Model;

// The record, lent: some bundle loads to it, memo aside.
#[derive(Drop)]
pub struct Rules<'a> {
    pub columns: &'a Record,
}

impl<'a> Model for Rules<'a> {
    ghost use Rattle.std.specs.Prelude.{◌≡◌, true};
    ghost use Rattle.policy.specs.declared.Record.{Record};
    ghost use Rattle.policy.specs.Loadable.{loadable};

    ghost Value = { Record };

    ghost view = { λ rules. rules.columns.now };

    ghost invariant = { λ rules. loadable rules.columns.now ≡ true };
}

impl<'a> Rules<'a> {
    // The rules of a record, if some bundle loads to it.
    pub fn of(columns: &'a Record) -> Option<Rules<'a>>
        ensures rules { MatchOption result (loadable columns.now ≡ false) (λ rules. rules ≡ columns.now) }
        ensures typed { Typed columns.now }
    {
        if !loadable::loadable(columns) {
            return None;
        }
        Some(Rules { columns })
    }
}
