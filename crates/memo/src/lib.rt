// The memo of a record, and the steps of the two questions on it: what is evaluated and entered, member by member or all at once.

#![tactic(auto)]

ghost use Rattle.std.specs.Prelude.{◌≡◌, ◌<◌, ◌≤◌, ◌&&◌, not, count_by};
ghost use Rattle.std.specs.List.{zip};
ghost use Rattle.common.specs.Limits.{most_formulas};
ghost use Rattle.common.specs.Lists.{below};
ghost use Rattle.justification.specs.Justification.{members};
ghost use Rattle.justification.specs.MarkedSets.{Marks};
ghost use Rattle.memo.specs.Memo.{value, memo_for, truth_in};
ghost use Rattle.memo.specs.Memo as memos;
ghost use Rattle.memo.specs.Walk.{evaluated_all, formula_of, known_false, tried, weighed_of};
ghost use Rattle.memo.specs.WalkLaws.{MemoLengths};

pub mod principals;

use common::MOST_FORMULAS;
use evaluation::context::ObjectContext;
use justification::Question;
use policy::Memo;
use principals::Principals;

// What weighing a candidate came to: whether all its members are enabled, and the memo as it then is.
#[derive(Clone, Copy)]
pub struct Tried {
    pub survives: bool,
    pub memo: Memo,
}

// The memo for a question: if its pair differs, it is first emptied and takes the new pair.
#[tactic(auto, unfolding(crate::specs::Memo::memo_for))]
pub fn memo_for(memo: Memo, question: Question) -> Memo
    ensures { (result ≡ memo_for memo question) × MemoLengths result }
{
    if (memo.object, memo.requestor) == (question.object, question.requestor) {
        memo
    } else {
        policy::emptied(question.object, question.requestor)
    }
}

// How many are true after and were not true before.
fn gained(before: &[bool; MOST_FORMULAS], after: &[bool; MOST_FORMULAS]) -> usize
    ensures { (result ≡ count_by (λ pair. pair.0 && not pair.1) (zip after.now before.now)) × (result ≤ most_formulas) }
{
    after
        .iter()
        .zip(before)
        .filter(|&(now, then)| *now && !*then)
        .count()
}

// How many formulas are known after and were not known before.
#[tactic(auto, using(crate::proofs::Memos::newly_counted))]
pub fn newly(before: Memo, after: Memo) -> u8
    ensures { result ≡ memos.newly before after }
{
    gained(&before.known, &after.known) as u8
}

// Principal p's formula: it has a place in the memo.
fn formula_of(principals: &Principals<'_>, p: usize) -> usize
    requires { p < principals.now.principal_count }
    ensures { (result ≡ formula_of principals.now p) × (result < most_formulas) }
{
    usize::from(principals.columns.principal_formulas[p])
}

// Formula f evaluated at the object, unless known.
#[tactic(auto, unfolding(crate::specs::Memo::evaluated))]
fn evaluated(context: &ObjectContext<'_>, mut memo: Memo, f: usize) -> Memo
    requires { f < most_formulas }
    ensures { result ≡ memos.evaluated (truth_in context.now) memo f }
{
    if !memo.known[f] {
        memo.known[f] = true;
        memo.value[f] = evaluation::true_at_object(
            &context.rules,
            context.roles,
            context.object,
            context.requestor,
            f,
        );
    }
    memo
}

// Each principal in rising number has its formula evaluated, unless known.
#[tactic(auto, using(crate::specs::StepLaws::evaluated_more), unfolding(crate::specs::Walk::evaluated_all))]
pub fn evaluated_all(
    principals: &Principals<'_>,
    context: &ObjectContext<'_>,
    mut memo: Memo,
) -> Memo
    ensures { result ≡ evaluated_all (truth_in context.now) principals.now memo (below principals.now.principal_count) }
{
    for p in 0..principals.columns.principal_count {
        memo = evaluated(context, memo, formula_of(principals, p));
    }
    memo
}

// The principals with the value true in the memo.
pub fn valued(principals: &Principals<'_>, memo: Memo) -> u32
    ensures { Marks principals.now.principal_count (λ p. value memo (formula_of principals.now p)) result }
{
    justification::set_of(
        principals.columns.principal_count,
        |p| memo.value[formula_of(principals, p)],
    )
}

// The principals that are not known false.
pub fn not_known_false(principals: &Principals<'_>, memo: Memo) -> u32
    ensures { Marks principals.now.principal_count (λ p. not (known_false principals.now memo p)) result }
{
    justification::set_of(principals.columns.principal_count, |p| {
        let f = formula_of(principals, p);
        !(memo.known[f] && !memo.value[f])
    })
}

// The members of c in rising number are evaluated, unless known; the first that is not enabled ends it.
#[tactic(auto, using(crate::proofs::Weighing::weighing))]
pub fn weigh(
    principals: &Principals<'_>,
    context: &ObjectContext<'_>,
    mut memo: Memo,
    c: u32,
) -> Tried
    ensures { weighed_of result ≡ tried (truth_in context.now) principals.now memo (members principals.now c) }
{
    for p in 0..principals.columns.principal_count {
        if search::has(c, p) {
            let f = formula_of(principals, p);
            memo = evaluated(context, memo, f);
            if !memo.value[f] {
                return Tried {
                    survives: false,
                    memo,
                };
            }
        }
    }
    Tried {
        survives: true,
        memo,
    }
}
