// Runs of many calls with the knob turned between them, whose calls are made by a rule.

use cases::{Tally, counted};
use model::{Machine, Policy};

// Source 33 comes in call 0 and in the last one. The knob stands at 20.0, but in one call at another tempo, and in that
// the source may come too.
#[derive(Clone, Copy)]
pub struct Turn {
    pub call: usize,
    pub tempo: u32,
    pub comes: bool,
    pub last: usize,
}

// How the calls of a run are made: from a turn, or in rounds of three calls at one tempo. In a round source 33 tries to
// come, then source 34, and the third call has no arrival. The knob rises from 20.0 in 63 rounds, up to a tempo, and is
// at that in the 64th.
#[derive(Clone, Copy)]
enum Rule {
    Turned(Turn),
    Rounds(u32),
}

// The arrivals of a call, as a mask, and its tempo.
#[derive(Clone, Copy)]
struct Call {
    mask: u8,
    tempo: u32,
}

fn turned(turn: Turn, i: usize) -> Call {
    let here = i == turn.call;
    let arrives = i == 0 || i == turn.last || here && turn.comes;
    Call {
        mask: if arrives { 1 } else { 0 },
        tempo: if here { turn.tempo } else { 200 },
    }
}

fn in_round(top: u32, i: usize) -> Call {
    let round = (i / 3 % 64) as u32;
    let tempo = 200 + 25 * round;
    let mask = match i % 3 {
        0 => 1,
        1 => 2,
        _ => 0,
    };
    Call {
        mask,
        tempo: if round == 63 || top < tempo {
            top
        } else {
            tempo
        },
    }
}

fn call_of(rule: Rule, i: usize) -> Call {
    match rule {
        Rule::Turned(turn) => turned(turn, i),
        Rule::Rounds(top) => in_round(top, i),
    }
}

// The byte at a place of the calls.
fn byte_at(rule: Rule, k: usize) -> u8 {
    let call = call_of(rule, k / 6);
    match k % 6 {
        1 => call.mask,
        2 => (call.tempo / 256 % 256) as u8,
        3 => (call.tempo % 256) as u8,
        _ => 0,
    }
}

// The first n calls at the front of a page, if it has room for them.
fn fill(page: &mut [u8], rule: Rule, n: usize) {
    if page.len() / 6 < n {
        return;
    }
    for k in 0..6 * n {
        page[k] = byte_at(rule, k);
    }
}

// The record after the first n calls of a page, and their codes in a buffer; a blank one where the page has fewer.
fn played(p: Policy, file: &[u8], page: &[u8], n: usize, codes: &mut [u8]) -> Machine {
    if page.len() / 6 < n {
        return refusals::blank_machine();
    }
    ticks::run(p, files::read(file).description, &page[..6 * n], codes).machine
}

// The code of a call of a turned run, of which the turned call and the last one have their own.
fn code_of(turn: Turn, at_turn: u8, at_last: u8, i: usize) -> u8 {
    if i == turn.last {
        return at_last;
    }
    if i == turn.call {
        return at_turn;
    }
    0
}

// Whether a buffer begins with the codes of a turned run.
fn same_codes(codes: &[u8], turn: Turn, at_turn: u8, at_last: u8) -> bool {
    if codes.len() <= turn.last {
        return false;
    }
    (0..turn.last + 1).all(|i| codes[i] == code_of(turn, at_turn, at_last, i))
}

// The turned call and the last one of a run have these codes, all others 0.
pub fn codes(t: Tally, file: &[u8], turn: Turn, at_turn: u8, at_last: u8) -> Tally {
    let mut page = [0u8; 12288];
    let mut codes = [255u8; 2048];
    if 2048 <= turn.last {
        return counted(t, false);
    }
    let n = turn.last + 1;
    fill(&mut page, Rule::Turned(turn), n);
    let p = t.policy;
    played(p, file, &page, n, &mut codes);
    let agree = same_codes(&codes, turn, at_turn, at_last);
    counted(t, agree)
}

// How many calls at a place of their rounds are done.
fn done_in(codes: &[u8], place: usize) -> u64 {
    codes
        .iter()
        .enumerate()
        .filter(|(i, code)| i % 3 == place && **code == 0)
        .count() as u64
}

// Rounds played: the record after them, and how often sources 33 and 34 came and the third call was done.
#[derive(Clone, Copy)]
pub struct AfterRounds {
    pub machine: Machine,
    pub first: u64,
    pub second: u64,
    pub still: u64,
}

// 2,048 rounds on a model.
pub fn rounds(p: Policy, file: &[u8], top: u32) -> AfterRounds {
    let mut page = [0u8; 36864];
    let mut codes = [255u8; 6144];
    fill(&mut page, Rule::Rounds(top), 6144);
    let machine = played(p, file, &page, 6144, &mut codes);
    let first = done_in(&codes, 0);
    let second = done_in(&codes, 1);
    let still = done_in(&codes, 2);
    AfterRounds {
        machine,
        first,
        second,
        still,
    }
}
