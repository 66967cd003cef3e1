// A request: the object and the requestor of a question, on rules that are lent, with the roles that the requestor holds.

ghost use Rattle.std.specs.Prelude.{◌≡◌};

use crate::roles_of;
use policy::Record;
use policy::rules::Rules;
use std::marker::Model;

// An object and a requestor, on rules.
#[derive(Drop)]
pub struct Request<'a> {
    pub columns: &'a Record,
    pub roles: u16,
    pub object: u8,
    pub requestor: u8,
}

impl<'a> Model for Request<'a> {
    ghost use Rattle.std.specs.Prelude.{◌≡◌, true};
    ghost use Rattle.policy.specs.Loadable.{loadable};
    ghost use Rattle.formula.specs.Requests.{Asked, RolesHeld};

    ghost Value = { Asked };

    ghost view = { λ q. record { rules = q.columns.now; object = q.object; requestor = q.requestor } };

    ghost invariant = { λ q. (loadable q.columns.now ≡ true) × RolesHeld q.columns.now q.requestor q.roles };
}

impl<'a> Request<'a> {
    // The request of an object and a requestor.
    pub fn of(rules: &Rules<'a>, object: u8, requestor: u8) -> Request<'a>
        ensures { result ≡ record { rules = rules.now; object = object; requestor = requestor } }
    {
        Request {
            columns: rules.columns,
            roles: roles_of(rules.columns, requestor),
            object,
            requestor,
        }
    }
}
