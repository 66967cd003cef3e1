// Grant tickets: whether a set of principals that somebody proposes for a question will do. Formulas are evaluated afresh; the memo is
// neither read nor changed.

#![tactic(auto)]

ghost use Rattle.std.specs.Prelude.{◌≡◌, ℕ, ◌^◌, ◌≤◌, ◌<◌, ltb, cond, ◌&&◌};
ghost use Rattle.common.specs.Limits.{most_principals};
ghost use Rattle.common.specs.Lists.{every};
ghost use Rattle.common.specs.RefusalNumbers.{outcome_number};
ghost use Rattle.common.specs.Refusals.{not_enabled};
ghost use Rattle.policy.specs.declared.Record as records;
ghost use Rattle.policy.specs.Typed.{Typed};
ghost use Rattle.justification.specs.Justification.{members};
ghost use Rattle.justification.specs.Masked.{Masked};
ghost use Rattle.tickets.specs.Tickets.{constraint_refusal, enabled_for, ticket_refusal};

use common::Refusal;
use formula::request::Request;
use justification::Question;
use policy::Record;
use policy::rules::Rules;
use search::Masks;

// A ticket: a question, and the set of principals that is proposed for it.
#[derive(Clone, Copy)]
pub struct Ticket {
    pub question: Question,
    pub set: u32,
}

// Whether every member of the set is a principal, of so many.
#[tactic(auto, using(crate::proofs::Checking::shifted_out))]
fn are_principals(count: usize, set: u32) -> bool
    requires { count ≤ most_principals }
    ensures { result ≡ ltb set (2 ^ count) }
{
    set >> count == 0
}

// Whether every member that is a principal is enabled. Only the members' formulas are evaluated, and none once one is false.
#[tactic(auto, using(crate::proofs::Places::places, crate::proofs::Checking::enabling))]
fn are_enabled(request: &Request<'_>, set: u32) -> bool
    ensures { result ≡ every (enabled_for request.now) (members request.now.rules set) }
{
    for p in 0..request.columns.principal_count {
        if search::has(set, p) {
            let f = usize::from(request.columns.principal_formulas[p]);
            if !evaluation::holds(request, f) {
                return false;
            }
        }
    }
    true
}

// 20 where some member is no principal or isn't enabled.
#[tactic(auto, using(crate::proofs::Places::principals_few))]
fn check_members(request: &Request<'_>, set: u32) -> Result<(), Refusal>
    ensures { outcome_number result ≡ cond (ltb set (2 ^ request.now.rules.principal_count)
        && every (enabled_for request.now) (members request.now.rules set)) 0 not_enabled }
{
    if are_principals(request.columns.principal_count, set) && are_enabled(request, set) {
        Ok(())
    } else {
        Err(Refusal::NotEnabled)
    }
}

// 21 where the set is not consistent, then 22 where its members do not meet the guard. All are principals of the masks' record.
fn check_constraints(masks: &Masks, set: u32) -> Result<(), Refusal>
    requires { set < 2 ^ masks.now.count }
    ensures { (rules : records.Record) (m a : ℕ) → Masked rules m a masks.now
        → outcome_number result ≡ constraint_refusal rules m set }
{
    if !masks.consistent(set) {
        return Err(Refusal::NotConsistent);
    }
    if !masks.met(set) {
        return Err(Refusal::GuardNotMet);
    }
    Ok(())
}

// Checks a ticket: 19, 14, 15 or 16 for its question; 20 for a member that is no principal or isn't enabled, 21 for a set that isn't
// consistent, 22 for a guard not met.
#[tactic(auto, using(crate::proofs::Checking::not_loadable_lem))]
pub fn check(rules: &Record, ticket: Ticket) -> Result<(), Refusal>
    ensures { (outcome_number result ≡ ticket_refusal rules.now ticket) × Typed rules.now }
{
    let rules = Rules::of(rules).ok_or(Refusal::NotLoadable)?;
    decide(&rules, ticket)
}

// The same, on a record to which some bundle loads.
#[tactic(auto, using(crate::proofs::Places::method_there, crate::proofs::Checking::refused_question))]
pub fn decide(rules: &Rules<'_>, ticket: Ticket) -> Result<(), Refusal>
    ensures { outcome_number result ≡ ticket_refusal rules.now ticket }
{
    let question = ticket.question;
    justification::check_question(rules, question)?;
    let request = Request::of(rules, question.object, question.requestor);
    check_members(&request, ticket.set)?;
    let masks = justification::masks_of(rules.columns, usize::from(question.method), 0);
    check_constraints(&masks, ticket.set)
}
