// The eager and the lazy question: a record, a method, an object and a requestor; the least set of grounds that will do, or 17.

#![tactic(auto)]

ghost use Rattle.std.specs.Prelude.{◌≡◌, ℕ, ◌+◌, true, false, MatchResult};
ghost use Rattle.std.specs.Fn.{FnOnceReturnsAt};
ghost use Rattle.common.specs.RefusalNumbers.{number};
ghost use Rattle.common.specs.Refusals.{not_loadable};
ghost use Rattle.common.specs.Sets.{member};
ghost use Rattle.policy.specs.declared.Record as records;
ghost use Rattle.policy.specs.Loadable.{loadable};
ghost use Rattle.policy.specs.Typed.{Typed};
ghost use Rattle.justification.specs.Justification as justifications;
ghost use Rattle.justification.specs.Predicates.{question_refusal};
ghost use Rattle.justification.specs.Masked.{Masked};
ghost use Rattle.memo.specs.Memo.{truth_in};
ghost use Rattle.memo.specs.Walk as walks;
ghost use Rattle.access.specs.declared.Decision as decisions;
ghost use Rattle.access.specs.Access as access;
ghost use Rattle.access.specs.Answers.{answer_values, decision_values};
ghost use Rattle.access.specs.Choices.{Puts, came_to, found, outcome_of};

use common::Refusal;
use evaluation::context::ObjectContext;
use formula::request::Request;
use justification::Question;
use memo::principals::Principals;
use policy::rules::Rules;
use policy::{Memo, Record};
use search::Masks;

// What a question answers: the set that is granted, or why it is refused; the evaluations; and the record.
#[derive(Clone, Copy)]
pub struct Answer {
    pub outcome: Result<u32, Refusal>,
    pub evaluations: u8,
    pub rules: Record,
}

// What a question comes to: the same, with the memo that it leaves in place of the record.
#[derive(Clone, Copy)]
pub struct Decision {
    pub outcome: Result<u32, Refusal>,
    pub evaluations: u8,
    pub memo: Memo,
}

// What is chosen: the least set that will do, if there is one, and the memo before and after the evaluations.
#[derive(Clone, Copy)]
struct Choice {
    set: Option<u32>,
    before: Memo,
    after: Memo,
}

// ---- what a question comes to

// The decision for a choice, or for what refuses the question: that leaves the very memo.
#[tactic(auto, using(crate::proofs::Choosing::chosen_is, crate::proofs::Choosing::refused_is))]
fn decision_of(memo: Memo, choice: Result<Choice, Refusal>) -> Decision
    ensures { (rules : records.Record) → memo ≡ rules.memo → access.leaves rules (decision_values result) ≡ came_to rules choice }
{
    match choice {
        Ok(choice) => Decision {
            outcome: choice.set.ok_or(Refusal::NoSet),
            evaluations: memo::newly(choice.before, choice.after),
            memo: choice.after,
        },
        Err(refusal) => Decision {
            outcome: Err(refusal),
            evaluations: 0,
            memo,
        },
    }
}

// The answer, with the record that a decision leaves.
#[tactic(auto, unfolding(policy::specs::Table::with_memo))]
pub fn answer_of(mut rules: Record, decision: Decision) -> Answer
    ensures { answer_values result ≡ access.leaves rules (decision_values decision) }
{
    rules.memo = decision.memo;
    Answer {
        outcome: decision.outcome,
        evaluations: decision.evaluations,
        rules,
    }
}

// ---- what both forms share

// The answer of a record to which some bundle loads: what its rules decide. Else 19.
fn asked<F: FnOnce(&Rules<'_>) -> Decision>(rules: Record, decide: F) -> Answer
    requires { F.IsAlwaysCallable decide }
    ensures refused { loadable rules ≡ false → answer_values result ≡ access.refused not_loadable rules }
    ensures decided { loadable rules ≡ true → (decision : decisions.Decision) × FnOnceReturnsAt F.FnOnce decide rules decision
        × (answer_values result ≡ access.leaves rules (decision_values decision)) }
    ensures typed { Typed rules }
{
    let decision = match Rules::of(&rules) {
        Some(lent) => decide(&lent),
        None => decision_of(rules.memo, Err(Refusal::NotLoadable)),
    };
    answer_of(rules, decision)
}

// A question that may be put: the request, the masks for its method, and the memo for it. Else what refuses it.
#[tactic(auto, using(crate::proofs::Choosing::method_there))]
fn put<'a>(rules: &Rules<'a>, question: Question) -> Result<(Request<'a>, Masks, Memo), Refusal>
    ensures { MatchResult result (λ x. Puts rules.now question x.0 x.1 x.2)
        (λ refusal. number refusal ≡ question_refusal rules.now question) }
{
    justification::check_question(rules, question)?;
    let request = Request::of(rules, question.object, question.requestor);
    let masks = justification::masks_of(rules.columns, usize::from(question.method), 0);
    Ok((request, masks, memo::memo_for(rules.columns.memo, question)))
}

// The least candidate of the masks' record and method among other allowed principals.
fn least_among(mut masks: Masks, allowed: u32) -> Option<u32>
    ensures { (rules : records.Record) (m a : ℕ) → Masked rules m a masks
        → found result ≡ justifications.least rules m (λ p. member p allowed) }
{
    masks.allowed = allowed;
    masks.least()
}

// ---- eager

// The eager question.
#[tactic(auto, using(crate::proofs::Choosing::eager_unloadable))]
pub fn ask_eager(rules: Record, question: Question) -> Answer
    ensures { (answer_values result ≡ access.eager rules question) × Typed rules }
{
    asked(rules, |lent| decide_eager(lent, question))
}

// What it comes to, for a caller that keeps the record.
pub fn decide_eager(rules: &Rules<'_>, question: Question) -> Decision
    ensures { access.leaves rules.now (decision_values result) ≡ access.eager rules.now question }
{
    decision_of(rules.columns.memo, choose_eagerly(rules, question))
}

// All principals' formulas are evaluated first, unless known.
#[tactic(auto, using(crate::proofs::Choosing::eager_refused))]
fn choose_eagerly(rules: &Rules<'_>, question: Question) -> Result<Choice, Refusal>
    ensures { came_to rules.now result ≡ access.eager rules.now question }
{
    let (request, masks, before) = put(rules, question)?;
    let principals = Principals::of(&request);
    let context = ObjectContext::of(&request);
    let after = memo::evaluated_all(&principals, &context, before);
    let enabled = memo::valued(&principals, after);
    Ok(Choice {
        set: least_among(masks, enabled),
        before,
        after,
    })
}

// ---- lazy

// The lazy question.
#[tactic(auto, using(crate::proofs::Choosing::lazy_unloadable))]
pub fn ask_lazy(rules: Record, question: Question) -> Answer
    ensures { (answer_values result ≡ access.lazy rules question) × Typed rules }
{
    asked(rules, |lent| decide_lazy(lent, question))
}

// What it comes to, for a caller that keeps the record.
pub fn decide_lazy(rules: &Rules<'_>, question: Question) -> Decision
    ensures { access.leaves rules.now (decision_values result) ≡ access.lazy rules.now question }
{
    decision_of(rules.columns.memo, choose_lazily(rules, question))
}

// A candidate's formulas are evaluated only when it is weighed.
#[tactic(auto, using(crate::proofs::Choosing::lazy_refused))]
fn choose_lazily(rules: &Rules<'_>, question: Question) -> Result<Choice, Refusal>
    ensures { came_to rules.now result ≡ access.lazy rules.now question }
{
    let (request, masks, before) = put(rules, question)?;
    let principals = Principals::of(&request);
    let context = ObjectContext::of(&request);
    Ok(search_by(&principals, &context, masks, before))
}

// At most one search more than there are principals, each among those not known false.
fn search_by(
    principals: &Principals<'_>,
    context: &ObjectContext<'_>,
    masks: Masks,
    before: Memo,
) -> Choice
    ensures { (m : ℕ) → Masked principals.now m 0 masks → (result.before ≡ before) × (outcome_of result
        ≡ walks.searching (principals.now.principal_count + 1) (truth_in context.now) principals.now m before) }
{
    let mut after = before;
    for _round in 0..=principals.columns.principal_count {
        let open = memo::not_known_false(principals, after);
        let Some(c) = least_among(masks, open) else {
            break;
        };
        let tried = memo::weigh(principals, context, after, c);
        after = tried.memo;
        if tried.survives {
            return Choice {
                set: Some(c),
                before,
                after,
            };
        }
    }
    Choice {
        set: None,
        before,
        after,
    }
}
