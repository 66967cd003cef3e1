// The public calls on a record, and what they said.

use access::Answer;
use bundle::NotWritten;
use common::{Refusal, number_of};
use justification::Question;
use policy::{Edited, Memo, Record};
use tickets::Ticket;

// What the last call said: its number, its value (the set, 1 for yes, the length written) and its evaluations, and of the record that it
// handed back the count of edges and the memo. Then whether each call since the last edge was added has handed the record back as it was,
// given nothing, and said 19.
#[derive(Clone, Copy)]
pub struct Said {
    pub number: u8,
    pub value: u32,
    pub evaluations: u8,
    pub edges: usize,
    pub memo: Memo,
    pub left: bool,
    pub nothing: bool,
    pub refused: bool,
}

// What one call says, as it is shown: the first three of these, and the record that it hands back.
#[derive(Clone, Copy)]
struct Reply {
    number: u8,
    value: u32,
    evaluations: u8,
    rules: Record,
}

// Without evaluations.
fn replied<T: Copy>(rules: Record, outcome: Result<T, Refusal>, value: u32) -> Reply {
    Reply {
        number: number_of(outcome),
        value,
        evaluations: 0,
        rules,
    }
}

// ---- the writer

// The most room that it is lent.
const ROOM: usize = 2048;

// What the room holds before: no byte of any bundle.
const UNTOUCHED: [u8; ROOM] = [165; ROOM];

// The room after writing the record with no memo.
fn written_without_memo(mut rules: Record) -> [u8; ROOM] {
    rules.memo = policy::emptied(0, 0);
    let mut bytes = UNTOUCHED;
    let _ = bundle::write(&rules, &mut bytes);
    bytes
}

// The writer, lent the first bytes of the room: the length written or needed for the value, and for the evaluations 1 where the room is
// not as expected.
fn reply_of_writer(rules: Record, n: usize, expected: &[u8; ROOM]) -> Reply {
    let mut bytes = UNTOUCHED;
    let (number, length) = match bundle::write(&rules, &mut bytes[..n % (ROOM + 1)]) {
        Ok(length) => (0, length),
        Err(NotWritten::NotLoadable) => (u8::from(Refusal::NotLoadable), 0),
        Err(NotWritten::ShortBuffer(needed)) => (u8::from(Refusal::ShortBuffer), needed),
    };
    Reply {
        number,
        value: (length % 65536) as u32,
        evaluations: u8::from(bytes != *expected),
        rules,
    }
}

// ---- the other calls

// An edit's answer: a number alone.
fn reply_of_edit(edited: Edited) -> Reply {
    replied(edited.rules, edited.outcome, 0)
}

// A question's answer: the set, 0 where it is refused.
fn reply_of_question(answer: Answer) -> Reply {
    Reply {
        evaluations: answer.evaluations,
        ..replied(answer.rules, answer.outcome, answer.outcome.unwrap_or(0))
    }
}

// A predicate's answer: 1 for yes, 0 for no or where it is refused.
fn reply_of_predicate(rules: Record, outcome: Result<bool, Refusal>) -> Reply {
    replied(rules, outcome, u32::from(outcome.unwrap_or(false)))
}

// The call of a code, with three octets: 0 add, 1 remove, 2 eager, 3 lazy, 4 liberal, 5 strict, 6 write (the room should stay as it is),
// 7 write (the room should be as after writing the record with no memo), 0x10 to 0x1F a ticket for the set whose number is the second digit.
fn reply_to(rules: Record, code: u8, a: u8, b: u8, c: u8) -> Reply {
    let question = Question {
        method: a,
        object: b,
        requestor: c,
    };
    match code {
        0 => reply_of_edit(rules.add_edge(a, b, c)),
        1 => reply_of_edit(rules.remove_edge(a, b, c)),
        2 => reply_of_question(access::ask_eager(rules, question)),
        3 => reply_of_question(access::ask_lazy(rules, question)),
        4 => reply_of_predicate(rules, predicates::liberal(&rules, question)),
        5 => reply_of_predicate(rules, predicates::strict(&rules, question)),
        6 => reply_of_writer(rules, usize::from(u16::from_be_bytes([a, b])), &UNTOUCHED),
        7 => reply_of_writer(rules, ROOM, &written_without_memo(rules)),
        _ => {
            let set = u32::from(code % 16);
            replied(rules, tickets::check(&rules, Ticket { question, set }), 0)
        }
    }
}

// ---- what they said

// After one call more.
pub fn after_call(before: &Said, rules: Record, [code, a, b, c]: [u8; 4]) -> Said {
    let reply = reply_to(rules, code, a, b, c);
    let begins = code == 0;
    Said {
        number: reply.number,
        value: reply.value,
        evaluations: reply.evaluations,
        edges: reply.rules.edge_count,
        memo: reply.rules.memo,
        left: (begins || before.left) && rules == reply.rules,
        nothing: (begins || before.nothing) && reply.value == 0 && reply.evaluations == 0,
        refused: (begins || before.refused) && reply.number == u8::from(Refusal::NotLoadable),
    }
}
