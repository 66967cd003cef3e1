// Lists of calls, answered one after another, each on the record that those before it left. The theorem of demand 3 over such
// lists stands in specs/.

#![tactic(auto)]

ghost use Rattle.std.specs.Prelude.{◌≡◌};
ghost use Rattle.policy.specs.Loadable as validity;
ghost use Rattle.policy.specs.Typed.{Typed};
ghost use Rattle.access.specs.Access.{leaves};
ghost use Rattle.access.specs.Answers.{answer_values, decision_values};
ghost use Rattle.replay.specs.Replay.{answer_to, answer_octets, answered_count, buffer_after, replayed};
ghost use Rattle.replay.specs.CallValues.{call_values, reply_values};

use access::{Answer, Decision};
use common::Refusal;
use justification::Question;
use policy::Record;
use policy::rules::Rules;
use tickets::Ticket;

// A call is eight octets: kind, three numbers, and the set number in 4 octets, the high one first. Its answer is five.
const CALL_OCTETS: usize = 8;

const ANSWER_OCTETS: usize = 5;

// An edge, to be added or removed.
#[derive(Clone, Copy)]
pub struct Edge {
    pub label: u8,
    pub source: u8,
    pub target: u8,
}

// A call: an edit, a question in its forms, a ticket, or no kind that there is.
#[derive(Clone, Copy)]
pub enum Call {
    Add(Edge),
    Remove(Edge),
    AskEagerly(Question),
    AskLazily(Question),
    AskLiberally(Question),
    AskStrictly(Question),
    CheckTicket(Ticket),
    Unknown,
}

// The call that eight octets list. What a kind has no use for is ignored.
impl From<[u8; CALL_OCTETS]> for Call {
    ghost use Rattle.replay.specs.CallValues.{IsCallOf};

    ghost from_gives = { IsCallOf };

    fn from(octets: [u8; CALL_OCTETS]) -> Call {
        let [kind, first, second, third, highest, high, low, lowest] = octets;
        let edge = Edge {
            label: first,
            source: second,
            target: third,
        };
        let question = Question {
            method: first,
            object: second,
            requestor: third,
        };
        match kind {
            0 => Call::Add(edge),
            1 => Call::Remove(edge),
            2 => Call::AskEagerly(question),
            3 => Call::AskLazily(question),
            4 => Call::AskLiberally(question),
            5 => Call::AskStrictly(question),
            6 => Call::CheckTicket(Ticket {
                question,
                set: u32::from_be_bytes([highest, high, low, lowest]),
            }),
            _ => Call::Unknown,
        }
    }
}

// What a call answers, beside the record that it leaves: the set, 1 for a predicate's yes, or why it is refused; the evaluations.
#[derive(Clone, Copy)]
struct Reply {
    outcome: Result<u32, Refusal>,
    evaluations: u8,
}

impl Reply {
    // The octets: number, set in 3 octets, evaluations.
    fn octets(self) -> [u8; ANSWER_OCTETS]
        ensures { (rules : Record) → result ≡ answer_octets (reply_values self rules) }
    {
        let [_, high, middle, low] = self.outcome.unwrap_or(0).to_be_bytes();
        [
            common::number_of(self.outcome),
            high,
            middle,
            low,
            self.evaluations,
        ]
    }
}

// Answers one call. An unknown one is refused with 4.
pub fn answer(mut rules: Record, call: Call) -> Answer
    ensures { (answer_values result ≡ answer_to rules (call_values call)) × Typed rules }
{
    let loads = policy::loadable::loadable(&rules);
    let reply = answer_given(&mut rules, loads, call);
    Answer {
        outcome: reply.outcome,
        evaluations: reply.evaluations,
        rules,
    }
}

// The same in place, where it is known whether some bundle loads to the record. What it asks of rules is refused with 19 where none does.
#[tactic(auto, unfolding(crate::specs::Replay::answer_to))]
fn answer_given(rules: &mut Record, loads: bool, call: Call) -> Reply
    requires { loads ≡ validity.loadable rules.old }
    ensures { reply_values result rules.new ≡ answer_to rules.old (call_values call) }
{
    let outcome = match call {
        Call::Add(edge) => rules
            .add_edge_given(loads, edge.label, edge.source, edge.target)
            .map(|()| 0),
        Call::Remove(edge) => rules
            .remove_edge_given(loads, edge.label, edge.source, edge.target)
            .map(|()| 0),
        Call::Unknown => Err(Refusal::WrongKind),
        _ if !loads => Err(Refusal::NotLoadable),
        Call::AskEagerly(question) => {
            let decision = access::decide_eager(&Rules { columns: rules }, question);
            return kept(rules, decision);
        }
        Call::AskLazily(question) => {
            let decision = access::decide_lazy(&Rules { columns: rules }, question);
            return kept(rules, decision);
        }
        Call::AskLiberally(question) => {
            predicates::decide_liberally(&Rules { columns: rules }, question).map(u32::from)
        }
        Call::AskStrictly(question) => {
            predicates::decide_strictly(&Rules { columns: rules }, question).map(u32::from)
        }
        Call::CheckTicket(ticket) => {
            tickets::decide(&Rules { columns: rules }, ticket).map(|()| 0)
        }
    };
    Reply {
        outcome,
        evaluations: 0,
    }
}

// The reply to a question, which leaves the decision's memo in the record.
#[tactic(auto, unfolding(policy::specs::Table::with_memo))]
fn kept(rules: &mut Record, decision: Decision) -> Reply
    ensures { reply_values result rules.new ≡ leaves rules.old (decision_values decision) }
{
    rules.memo = decision.memo;
    Reply {
        outcome: decision.outcome,
        evaluations: decision.evaluations,
    }
}

// Answers the calls in turn, and returns how many: as many as are whole and have room. No call changes whether some bundle loads to the
// record: one test does for all.
pub fn answer_all(rules: &mut Record, calls: &[u8], answers: &mut [u8]) -> usize
    ensures leaves { record { count = result; rules = rules.new } ≡ replayed rules.old calls.now answers.old }
    ensures buffer { answers.new ≡ buffer_after rules.old calls.now answers.old }
    ensures typed { Typed rules.old }
{
    let loads = policy::loadable::loadable(rules);
    let (listed, _) = calls.as_chunks::<CALL_OCTETS>();
    let count = listed.len().min(answers.len() / ANSWER_OCTETS);
    for (i, octets) in listed[..count].iter().enumerate() {
        let reply = answer_given(rules, loads, Call::from(*octets));
        // By place: `as_chunks_mut` promises nothing of what the answers end as.
        let place = ANSWER_OCTETS * i;
        answers[place..place + ANSWER_OCTETS].copy_from_slice(&reply.octets());
    }
    count
}

// The same, for a caller that does not need the record.
pub fn replay(mut rules: Record, calls: &[u8], answers: &mut [u8]) -> usize
    ensures { (result ≡ answered_count calls.now answers.old)
        × (answers.new ≡ buffer_after rules calls.now answers.old) × Typed rules }
{
    answer_all(&mut rules, calls, answers)
}
