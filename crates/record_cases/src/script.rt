// The script.

use crate::calls::{Said, after_call};
use policy::Record;
use record_columns::print::{character, flags, number, verdict};
use record_columns::{set_full_graph, set_number};

// Where `@` leads to: the first line after its caption.
const CALLS: usize = 382;

// No script takes more steps.
const STEPS: usize = 100000;

// The four octets that stand at an offset: a code, and what it is given.
fn command_at(text: &[u8], offset: usize) -> [u8; 4] {
    let mut command = [0; 4];
    for k in 0..4 {
        command[k] = octets::octet_at(text, offset, k);
    }
    command
}

// Changes the record: 0 the loaded one, 1 the blank one, 2 a full graph, and else a number of a column.
fn change(rules: &mut Record, loaded: &Record, [code, a, b, c]: [u8; 4]) {
    match code {
        0 => *rules = *loaded,
        1 => *rules = policy::blank(),
        2 => set_full_graph(rules),
        _ => set_number(rules, code, usize::from(u16::from_be_bytes([a, b])), c),
    }
}

// Prints what a code names of what was said.
fn show(said: &Said, code: u8) {
    match code {
        1 => number(u64::from(said.value)),
        2 => number(u64::from(said.evaluations)),
        3 => number(said.edges as u64),
        4 => number(u64::from(said.memo.object)),
        5 => number(u64::from(said.memo.requestor)),
        6 => verdict(said.left),
        7 => verdict(said.nothing),
        8 => verdict(said.refused),
        9 => verdict(said.evaluations == 0),
        0x10 => verdict(said.value != 0),
        0x11 => flags(&said.memo.known),
        0x12 => flags(&said.memo.value),
        _ => number(u64::from(said.number)),
    }
}

// Goes through the script from an offset: `[` changes the record, `<` calls, `{` shows, `@` leads to the calls and `$` back to where it
// stood; any other character is printed.
pub fn play(text: &[u8], from: usize, loaded: &Record) {
    let mut rules = *loaded;
    let mut said = Said {
        number: 0,
        value: 0,
        evaluations: 0,
        edges: 0,
        memo: policy::emptied(0, 0),
        left: true,
        nothing: true,
        refused: true,
    };
    let mut i = from;
    let mut back = 0;
    for _ in 0..STEPS {
        let Some(&opening) = text.get(i) else {
            return;
        };
        let after = i + 1;
        i = after;
        match opening {
            b'@' => {
                i = CALLS;
                back = after;
            }
            b'$' => {
                i = back;
                back = after;
            }
            b'[' => {
                change(&mut rules, loaded, command_at(text, after));
                i = after + 9;
            }
            b'<' => {
                said = after_call(&said, rules, command_at(text, after));
                i = after + 9;
            }
            b'{' => {
                show(&said, octets::octet_at(text, after, 0));
                i = after + 3;
            }
            _ => character(opening),
        }
    }
}
