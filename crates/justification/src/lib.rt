// Grounds and guards: what each principal excludes, needs and gives, and whether it is a role principal; who may put a question.

#![tactic(auto)]

ghost use Rattle.std.specs.Prelude.{◌≡◌, true, cond, ◌↔◌, ℕ, ◌^◌, ◌≤◌, ◌<◌, bit_or};
ghost use Rattle.common.specs.Limits.{most_formulas, most_demarcations, most_principals, most_exclusions, privilege_count};
ghost use Rattle.common.specs.Lists.{at};
ghost use Rattle.common.specs.RefusalNumbers.{outcome_number};
ghost use Rattle.common.specs.Sets.{In};
ghost use Rattle.closure.specs.Closure.{pairs_of, reaches};
ghost use Rattle.tables.specs.Loads.{pairs_load};
ghost use Rattle.formula.specs.Formula as formulas;
ghost use Rattle.justification.specs.Justification.{demarcation_has, is_role_principal};
ghost use Rattle.justification.specs.Satisfying.{excluded};
ghost use Rattle.justification.specs.Masked.{Masked, MasksFit, grounds_of};
ghost use Rattle.justification.specs.Predicates.{question_refusal};
ghost use Rattle.justification.specs.MarkedSets.{SetOf, Marks};

use common::{MOST_PAIRS, MOST_PRINCIPALS, Refusal};
use policy::Record;
use policy::rules::Rules;
use search::Masks;

// The op of a formula that asks for a role.
const ROLE_OP: u8 = 3;

// A question names method, object, requestor.
#[derive(Clone, Copy)]
pub struct Question {
    pub method: u8,
    pub object: u8,
    pub requestor: u8,
}

// ---- sets

// The privileges that a method lists: 64 at most.
pub fn listed(privileges: u64) -> u64
    ensures { (result ≡ privileges) × (result < 2 ^ privilege_count) }
{
    privileges
}

// The set s, with p added where p passes.
pub fn marked(s: u32, p: usize, passes: bool) -> u32
    requires { p < most_principals }
    ensures { result ≡ cond passes (bit_or s (2 ^ p)) s }
{
    if passes { search::add(s, p) } else { s }
}

// The set of those below n that pass.
pub fn set_of<F: Fn(usize) -> bool>(n: usize, passes: F) -> u32
    requires few { n ≤ most_principals }
    requires callable { (p : ℕ) → p < n → F.pre passes p }
    ensures { SetOf (F.post passes) n result }
{
    let mut s = 0;
    for p in 0..n {
        s = marked(s, p, passes(p));
    }
    s
}

// ---- hierarchy and prerequisites, closed

// For each of so many things the set of those that come to it by steps along the pairs, none or more. The pairs' columns are lent, since
// those of the hierarchy and of the prerequisites are of one form.
fn leading_to(
    things: usize,
    count: usize,
    firsts: &[u8; MOST_PAIRS],
    seconds: &[u8; MOST_PAIRS],
) -> [u32; MOST_PRINCIPALS]
    requires { (pairs_load things count firsts.now seconds.now ≡ true) × (things ≤ most_principals) }
    ensures { (j : ℕ) → j < things
        → Marks things (λ i. reaches (pairs_of count firsts.now seconds.now) i j) (at result j) }
{
    let relation = closure::related(firsts, seconds, count);
    let closed = closure::closed(relation, things);
    let mut sets = [0; MOST_PRINCIPALS];
    for j in 0..things {
        sets[j] = set_of(things, |i| closed[i][j]);
    }
    sets
}

// The privileges of each principal: those that its demarcation lists, or one below it.
pub fn grants_of(rules: &Record) -> [u64; MOST_PRINCIPALS]
    requires { (pairs_load rules.now.demarcation_count rules.now.hierarchy_count rules.now.inferiors rules.now.superiors ≡ true)
        × (rules.now.demarcation_count ≤ most_demarcations) × (rules.now.principal_count ≤ most_principals)
        × ((p : ℕ) → p < rules.now.principal_count → at rules.now.principal_demarcations p < rules.now.demarcation_count) }
    ensures { (p k : ℕ) → p < rules.now.principal_count
        → (In k (at result p) ↔ (demarcation_has rules.now (at rules.now.principal_demarcations p) k ≡ true)) }
{
    let below = leading_to(
        rules.demarcation_count,
        rules.hierarchy_count,
        &rules.inferiors,
        &rules.superiors,
    );
    let mut grants = [0; MOST_PRINCIPALS];
    for p in 0..rules.principal_count {
        let d = usize::from(rules.principal_demarcations[p]);
        grants[p] = search::gathered(
            rules.demarcation_count,
            below[d],
            &rules.demarcation_privileges,
        );
    }
    grants
}

// ---- exclusions

// What each principal excludes: of each pair the one excludes the other.
fn excludes_of(rules: &Record) -> [u32; MOST_PRINCIPALS]
    requires few { rules.now.exclusion_count ≤ most_exclusions }
    requires there { (i : ℕ) → i < rules.now.exclusion_count
        → (at rules.now.exclusion_lows i < most_principals) × (at rules.now.exclusion_highs i < most_principals) }
    ensures { (p q : ℕ) → p < most_principals → (In q (at result p) ↔ excluded rules.now p q) }
{
    let mut sets = [0; MOST_PRINCIPALS];
    for i in 0..rules.exclusion_count {
        let low = usize::from(rules.exclusion_lows[i]);
        let high = usize::from(rules.exclusion_highs[i]);
        sets[low] = search::add(sets[low], high);
        sets[high] = search::add(sets[high], low);
    }
    sets
}

// ---- the masks of a record

// The role principals.
#[tactic(auto, using(crate::proofs::Marking::set_marks))]
fn role_principals(rules: &Record) -> u32
    requires few { rules.now.principal_count ≤ most_principals }
    requires there { (p : ℕ) → p < rules.now.principal_count → at rules.now.principal_formulas p < most_formulas }
    ensures { Marks rules.now.principal_count (is_role_principal rules.now) result }
{
    set_of(rules.principal_count, |p| {
        rules.formula_ops[usize::from(rules.principal_formulas[p])] == ROLE_OP
    })
}

// What the search needs of a record, for a method and the principals that are allowed.
pub fn masks_of(rules: &Record, method: usize, allowed: u32) -> Masks
    requires { MasksFit (grounds_of rules.now) method }
    ensures { Masked rules.now method allowed result }
{
    let needs = leading_to(
        rules.principal_count,
        rules.prerequisite_count,
        &rules.prerequisites,
        &rules.dependents,
    );
    let excludes = excludes_of(rules);
    let grants = grants_of(rules);
    let roles = role_principals(rules);
    Masks {
        count: rules.principal_count,
        allowed,
        excludes,
        needs,
        grants,
        role_principals: roles,
        every: rules.method_forms[method] != 0,
        wanted: listed(rules.method_privileges[method]),
    }
}

// ---- questions

// Whether one of the user lines is that of s.
#[tactic(auto, using(crate::proofs::GuardLaws::few_users))]
fn is_user(rules: &Rules<'_>, s: u8) -> bool
    ensures { result ≡ formulas.is_user rules.now s }
{
    rules.columns.user_objects[..rules.columns.user_count].contains(&s)
}

// 14, 15 or 16, where the question may not be put to the rules.
#[tactic(auto, unfolding(crate::specs::Predicates::question_refusal))]
pub fn check_question(rules: &Rules<'_>, question: Question) -> Result<(), Refusal>
    ensures { outcome_number result ≡ question_refusal rules.now question }
{
    if rules.columns.method_count <= usize::from(question.method) {
        return Err(Refusal::NoMethod);
    }
    if rules.columns.objects <= question.object {
        return Err(Refusal::NoObject);
    }
    if !is_user(rules, question.requestor) {
        return Err(Refusal::NotUser);
    }
    Ok(())
}
