// The predicates liberal and strict, and the enabled principals of a record, all evaluated afresh.

#![tactic(auto)]

ghost use Rattle.std.specs.Prelude.{◌≡◌, true, ◌<◌, MatchResult};
ghost use Rattle.common.specs.Lists.{at};
ghost use Rattle.common.specs.RefusalNumbers.{number};
ghost use Rattle.common.specs.Sets.{In};
ghost use Rattle.policy.specs.Typed.{Typed};
ghost use Rattle.formula.specs.Formula.{holds};
ghost use Rattle.search.specs.Steps.{MetBy};
ghost use Rattle.justification.specs.Predicates.{question_refusal};
ghost use Rattle.justification.specs.Predicates as spec;
ghost use Rattle.justification.specs.Verdicts.{verdict_values};
ghost use Rattle.justification.specs.MarkedSets.{Those};
ghost use Rattle.predicates.specs.Guards.{Guards, Puts};

use common::Refusal;
use formula::request::Request;
use guard::Guard;
use justification::Question;
use policy::Record;
use policy::rules::Rules;

mod guard;

impl Guard {
    // The guard of a method.
    #[tactic(auto, using(crate::proofs::Places::principals_few, crate::proofs::Places::methods_few))]
    fn of(rules: &Rules<'_>, method: usize) -> Guard
        requires { method < rules.now.method_count }
        ensures { Guards rules.now method result }
    {
        Guard {
            count: rules.columns.principal_count,
            every: rules.columns.method_forms[method] != 0,
            wanted: justification::listed(rules.columns.method_privileges[method]),
            grants: justification::grants_of(rules.columns),
        }
    }

    // The principals that alone give every wanted privilege, or some.
    fn met_alone(&self, every: bool) -> u32
        ensures { Those self.now.count (λ p. MetBy every self.now.wanted (at self.now.grants p)) result }
    {
        justification::set_of(
            self.count,
            |p| search::meets(every, self.wanted, self.grants[p]),
        )
    }
}

// The enabled principals of those in `among`; no other formula is evaluated.
#[tactic(auto, using(crate::proofs::Places::principals_few, crate::proofs::Places::formula_named))]
pub fn enabled_of(request: &Request<'_>, among: u32) -> u32
    ensures { let q = request.now in Those q.rules.principal_count (λ p. (In p among)
        × (holds q.rules (at q.rules.principal_formulas p) q.object q.object q.requestor ≡ true)) result }
{
    justification::set_of(request.columns.principal_count, |p| {
        search::has(among, p)
            && evaluation::holds(request, usize::from(request.columns.principal_formulas[p]))
    })
}

// A question that may be put: the request, and the guard of its method. Else what refuses it.
#[tactic(auto, using(crate::proofs::Places::method_there))]
fn put<'a>(rules: &Rules<'a>, question: Question) -> Result<(Request<'a>, Guard), Refusal>
    ensures { MatchResult result (λ x. Puts rules.now question x.0 x.1)
        (λ refusal. number refusal ≡ question_refusal rules.now question) }
{
    justification::check_question(rules, question)?;
    let request = Request::of(rules, question.object, question.requestor);
    Ok((request, Guard::of(rules, usize::from(question.method))))
}

// Whether all enabled principals together meet the guard, without constraints.
#[tactic(auto, using(crate::proofs::Verdicts::liberal_unloadable))]
pub fn liberal(rules: &Record, question: Question) -> Result<bool, Refusal>
    ensures { (verdict_values result ≡ spec.liberal rules.now question) × Typed rules.now }
{
    let rules = Rules::of(rules).ok_or(Refusal::NotLoadable)?;
    decide_liberally(&rules, question)
}

// The same, on a record to which some bundle loads. Only the formulas of principals that give a wanted privilege are evaluated.
#[tactic(auto, using(crate::proofs::Verdicts::liberal_refused))]
pub fn decide_liberally(rules: &Rules<'_>, question: Question) -> Result<bool, Refusal>
    ensures { verdict_values result ≡ spec.liberal rules.now question }
{
    let (request, guard) = put(rules, question)?;
    let givers = guard.met_alone(false);
    let enabled = enabled_of(&request, givers);
    let given = search::gathered(guard.count, enabled, &guard.grants);
    Ok(search::meets(guard.every, guard.wanted, given))
}

// Whether one enabled principal alone meets the guard, without constraints.
#[tactic(auto, using(crate::proofs::Verdicts::strict_unloadable))]
pub fn strict(rules: &Record, question: Question) -> Result<bool, Refusal>
    ensures { (verdict_values result ≡ spec.strict rules.now question) × Typed rules.now }
{
    let rules = Rules::of(rules).ok_or(Refusal::NotLoadable)?;
    decide_strictly(&rules, question)
}

// The same, on a record to which some bundle loads. Only the formulas of principals that meet the guard are evaluated.
#[tactic(auto, using(crate::proofs::Verdicts::strict_refused))]
pub fn decide_strictly(rules: &Rules<'_>, question: Question) -> Result<bool, Refusal>
    ensures { verdict_values result ≡ spec.strict rules.now question }
{
    let (request, guard) = put(rules, question)?;
    let able = guard.met_alone(guard.every);
    let found = enabled_of(&request, able);
    Ok(found != 0)
}
