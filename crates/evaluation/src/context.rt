// What formulas are evaluated for at an object.

ghost use Rattle.std.specs.Prelude.{◌≡◌};
ghost use Rattle.formula.specs.Requests.{RolesHeld};

use crate::indexed::IndexedRecord;
use formula::request::Request;

// A record, an object and a requestor, with roles: those that the requestor holds, or any others.
#[derive(Drop)]
pub struct ObjectContext<'a> {
    pub rules: IndexedRecord<'a>,
    pub roles: u16,
    pub object: u8,
    pub requestor: u8,
}

impl<'a> ObjectContext<'a> {
    // The context of a request, with the roles that its requestor holds.
    pub fn of(request: &Request<'a>) -> ObjectContext<'a>
        ensures rules { result.rules ≡ request.now.rules }
        ensures object { result.object ≡ request.now.object }
        ensures requestor { result.requestor ≡ request.now.requestor }
        ensures roles { RolesHeld request.now.rules request.now.requestor result.roles }
    {
        let rules = IndexedRecord {
            columns: request.columns,
        };
        ObjectContext {
            rules,
            roles: request.roles,
            object: request.object,
            requestor: request.requestor,
        }
    }
}
