// The principals of a record, lent: each names a formula that has a place in the memo.

ghost use Rattle.std.specs.Prelude.{◌≡◌};

use formula::request::Request;
use policy::Record;
use std::marker::Model;

// The record, lent. Nothing is known of its other tables.
#[derive(Drop)]
pub struct Principals<'a> {
    pub columns: &'a Record,
}

impl<'a> Model for Principals<'a> {
    ghost use Rattle.policy.specs.declared.Record.{Record};
    ghost use Rattle.memo.specs.Lent.{FormulasFit};

    ghost Value = { Record };

    ghost view = { λ principals. principals.columns.now };

    ghost invariant = { λ principals. FormulasFit principals.columns.now.principal_count principals.columns.now.principal_formulas };
}

impl<'a> Principals<'a> {
    // The principals of a request's record.
    pub fn of(request: &Request<'a>) -> Principals<'a>
        ensures { result ≡ request.now.rules }
    {
        Principals {
            columns: request.columns,
        }
    }
}
