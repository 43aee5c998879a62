// The figures of the knob: tempos off it (11), the knob turned between calls (C-13), and Box with the knob moving, on
// both models.
#![tactic(auto)]

use cases::example::{BOX, swung};
use cases::file::described;
use cases::tick::{ages, arriving, idle};
use cases::{Tally, counted, tick};
use knob::{AfterRounds, Turn};
use model::{Description, Machine, Policy};
use std::io;

mod knob;

fn box_record() -> Description {
    described(&BOX)
}

fn blank() -> Description {
    described(b"")
}

// The first tick of Box at a tempo.
fn box_tick(t: Tally, tempo: u32, number: usize) -> Tally {
    let d = box_record();
    tick::ticks_once(t, d, tempo, idle(d), arriving(false, false), number)
}

// A run of Box or of a blank record that has no call, and one of Box whose call alone is refused.
fn short_runs(t: Tally) -> Tally {
    let mut none = [0u8; 1];
    let mut t = tick::runs(t, box_record(), b"", &mut none, 0);
    t = tick::runs(t, blank(), b"", &mut none, 8);
    tick::runs(t, box_record(), b"\x00\x00\x00\xc7\x00\x00", &mut none, 0)
}

// A call of a run of Box at 19.9 and 20.0, or at 300.0 and 300.1.
fn low_call(t: Tally, k: usize, number: u8) -> Tally {
    tick::call_is(
        t,
        &BOX,
        b"\x00\x00\x00\xc7\x00\x00\x00\x00\x00\xc8\x00\x00",
        k,
        number,
    )
}

fn high_call(t: Tally, k: usize, number: u8) -> Tally {
    tick::call_is(
        t,
        &BOX,
        b"\x00\x00\x0b\xb8\x00\x00\x00\x00\x0b\xb9\x00\x00",
        k,
        number,
    )
}

// 11 of a tick, and of a call in a run, which alone is refused; ages equal the spacings at 20.0 at the start, and
// beside a refusal they are 0.
fn knobs(rt: &HostRuntime) -> io::Result<()> {
    let mut t = tick::starts(cases::none(), box_record(), 0, 6250);
    t = tick::starts(t, blank(), 8, 0);
    t = tick::ages(t, idle(box_record()), 6250, 2000);
    t = box_tick(t, 199, 11);
    t = box_tick(t, 200, 0);
    t = box_tick(t, 3000, 0);
    t = box_tick(t, 3001, 11);
    t = short_runs(t);
    t = low_call(t, 0, 11);
    t = low_call(t, 1, 0);
    t = high_call(t, 0, 0);
    t = high_call(t, 1, 11);
    cases::print(rt, "knob", t)
}

// The knob at 300.0 in one call, and the last call of the run.
fn up(call: usize, last: usize) -> Turn {
    Turn {
        call,
        tempo: 3000,
        comes: false,
        last,
    }
}

// The knob left at 20.0.
fn level(last: usize) -> Turn {
    Turn {
        call: 1,
        tempo: 200,
        comes: false,
        last,
    }
}

// The knob at another tempo in call 1, where the source may come too; the last call is 105.
fn elsewhere(tempo: u32, comes: bool) -> Turn {
    Turn {
        call: 1,
        tempo,
        comes,
        last: 105,
    }
}

// The codes of a run of a source of 960 pulses with a swing of 75.
fn turns(t: Tally, turn: Turn, at_turn: u8, at_last: u8) -> Tally {
    knob::codes(t, &swung(960, 75), turn, at_turn, at_last)
}

// C-13: why the fastest tempo is kept. A source of 960 pulses with a swing of 75 has the spacing 1,562 at 20.0 and 104
// at 300.0. It fires in call 0; with the knob at 300.0 in call 1 only it may come in call 104, at 20.0, and not before.
fn kept_fastest(t: Tally) -> Tally {
    let mut t = turns(t, up(1, 104), 0, 0);
    t = turns(t, up(1, 103), 0, 14);
    t = turns(t, level(104), 0, 14);
    t = turns(t, level(1561), 0, 14);
    t = turns(t, level(1562), 0, 0);
    // the tick of its firing
    t = turns(t, up(0, 104), 0, 0);
    t = turns(t, up(0, 103), 0, 14);
    // its present tick
    t = turns(t, up(104, 104), 0, 0);
    turns(t, up(103, 103), 0, 14)
}

fn turned_knob(rt: &HostRuntime) -> io::Result<()> {
    let mut t = kept_fastest(cases::none());
    // before its first firing it is free, and in the next call it is too soon
    t = turns(t, level(0), 0, 0);
    t = turns(t, level(1), 0, 14);
    // a refused call is no tick and its tempo is not given: 104 ticks after the firing the source is too soon at 20.0
    t = turns(t, elsewhere(3000, true), 14, 14);
    t = turns(t, elsewhere(3001, false), 11, 14);
    t = turns(t, elsewhere(199, false), 11, 14);
    t = turns(t, up(1, 105), 0, 0);
    cases::print(rt, "C-13, the knob", t)
}

// No critical link of Box is dropped, and no tempo above the quote is kept.
fn unbroken(t: Tally, m: Machine, quote: u32) -> Tally {
    let mut t = counted(t, !m.dropped[1]);
    t = counted(t, !m.dropped[2]);
    t = counted(t, !m.dropped[3]);
    t = counted(t, m.fastest[0] <= quote);
    counted(t, m.fastest[1] <= quote)
}

// How often the sources came, and how often the third call was done.
fn came(t: Tally, r: AfterRounds) -> Tally {
    let mut t = counted(t, r.first == 3);
    t = counted(t, r.second == 2);
    counted(t, r.still == 2048)
}

// The third link of Box is dropped, and a tempo above the quote is kept.
fn broken(t: Tally, m: Machine, quote: u32) -> Tally {
    let t = counted(t, m.dropped[2]);
    counted(t, quote < m.fastest[0])
}

// Box with the knob between 20.0 and its quote, which is 178.3 on the preemptive model and 124.8 on the hold-on one,
// both sources trying to come in each round; then up to 300.0.
fn moving_knob(p: Policy, quote: u32) -> Tally {
    let r = knob::rounds(p, &BOX, quote);
    let mut m = r.machine;
    let mut t = unbroken(cases::none(), m, quote);
    t = came(t, r);
    let fast = knob::rounds(p, &BOX, 3000);
    m = fast.machine;
    broken(t, m, quote)
}

// A task of run 1, the swiftest paced source there is, a fixed source of 3, and a link from the first to the task.
const SWIFT: [u8; 26] =
    *b"\x01\x00\x04\x00\x00\x00\x01\x03\x00\x03\x03\xc0\x4b\x02\x00\x04\x00\x00\x00\x03\x04\x00\x03\x21\x01\x00";

fn swift() -> Description {
    described(&SWIFT)
}

// Its record after a tick at a tempo in which sources come.
fn later_at(tempo: u32, m: Machine, first: bool, second: bool) -> Machine {
    tick::later_on(
        Policy::Preemptive,
        swift(),
        tempo,
        m,
        arriving(first, second),
        false,
    )
}

// Of a record the first two sources' kept tempos.
fn keeps(t: Tally, m: Machine, first: u32, second: u32) -> Tally {
    counted(t, (m.fastest[0] == first) & (m.fastest[1] == second))
}

// What a record keeps: this tick's tempo at a firing, the larger one afterwards, 0 before the first firing.
fn kept_tempo(t: Tally) -> Tally {
    let mut m = idle(swift());
    let mut t = keeps(t, m, 0, 0);
    t = ages(t, m, 1562, 3);
    m = later_at(3000, m, false, false);
    t = keeps(t, m, 0, 0);
    t = ages(t, m, 1562, 3);
    m = later_at(1200, idle(swift()), true, false);
    t = keeps(t, m, 1200, 0);
    t = ages(t, m, 1, 3);
    m = later_at(3000, m, false, false);
    t = keeps(t, m, 3000, 0);
    m = later_at(200, m, false, false);
    t = keeps(t, m, 3000, 0);
    t = ages(t, m, 3, 3);
    m = later_at(200, m, false, true);
    t = keeps(t, m, 3000, 200);
    ages(t, m, 4, 1)
}

// A refused tick's tempo is not kept.
fn refused_tempo(t: Tally) -> Tally {
    let fired = later_at(1200, idle(swift()), true, false);
    let mut m = later_at(3000, fired, true, false);
    let t = keeps(t, m, 1200, 0);
    m = later_at(3001, fired, false, false);
    keeps(t, m, 1200, 0)
}

// The record of a source that has this age, with the knob at 300.0 once since it fired.
fn old(age: u32) -> Machine {
    let mut m = later_at(1200, idle(swift()), true, false);
    m = later_at(3000, m, false, false);
    m = later_at(200, m, false, false);
    m.ages[0] = age;
    m
}

// Ages rise up to the spacing at 20.0 at any tempo.
fn aged(t: Tally) -> Tally {
    let mut m = later_at(3000, old(104), false, false);
    let mut t = ages(t, m, 105, 3);
    m = later_at(200, old(104), true, false);
    t = keeps(t, m, 200, 0);
    t = ages(t, m, 1, 3);
    m = later_at(3000, old(1562), false, false);
    ages(t, m, 1562, 3)
}

fn kept_tempos(rt: &HostRuntime) -> io::Result<()> {
    let t = aged(refused_tempo(kept_tempo(cases::none())));
    cases::print(rt, "C-13, kept tempos", t)
}

// A tick at 20.0 of a record after a start whose first source has this age and this kept tempo.
fn first_source(t: Tally, age: u32, kept: u32, number: usize) -> Tally {
    let mut m = idle(swift());
    m.ages[0] = age;
    m.fastest[0] = kept;
    tick::ticks_still(t, swift(), m, number)
}

// The same at 300.0, of a record that passes.
fn fast_tick(t: Tally) -> Tally {
    let mut m = idle(swift());
    m.ages[0] = 1561;
    m.fastest[0] = 200;
    tick::ticks_once(t, swift(), 3000, m, arriving(false, false), 0)
}

// What an absent source has is 0; a tempo off the knob is told before that, an arrival too soon or of an absent source
// after it.
fn absent_sources(t: Tally) -> Tally {
    let mut m = idle(swift());
    m.fastest[2] = 200;
    let mut t = tick::ticks_still(t, swift(), m, 16);
    t = tick::ticks_once(t, swift(), 199, m, arriving(false, false), 11);
    m = idle(swift());
    m.ages[2] = 1;
    t = tick::ticks_still(t, swift(), m, 16);
    m = idle(swift());
    m.fastest[15] = 200;
    tick::ticks_once(t, swift(), 200, m, arriving(true, true), 16)
}

// 16 by the rules of ages and kept tempos: an age up to the spacing at 20.0; a kept tempo 0, with that age, or 200 to
// 3,000; both 0 for an absent source.
fn kept_rules(rt: &HostRuntime) -> io::Result<()> {
    let mut t = tick::ticks_still(cases::none(), swift(), idle(swift()), 0);
    t = first_source(t, 1561, 0, 16);
    t = first_source(t, 1561, 200, 0);
    t = fast_tick(t);
    t = first_source(t, 1561, 199, 16);
    t = first_source(t, 1561, 3000, 0);
    t = first_source(t, 1561, 3001, 16);
    t = first_source(t, 1562, 3000, 0);
    t = first_source(t, 1563, 3000, 16);
    t = first_source(t, 0, 3000, 0);
    t = first_source(t, 0, 0, 16);
    t = absent_sources(t);
    cases::print(rt, "C-13, rules of the record", t)
}

fn main(rt: HostRuntime) -> io::Result<()> {
    knobs(&rt)?;
    turned_knob(&rt)?;
    cases::print(
        &rt,
        "C-13, Box with the knob moving",
        moving_knob(Policy::Preemptive, 1783),
    )?;
    kept_tempos(&rt)?;
    kept_rules(&rt)?;
    cases::print(
        &rt,
        "C-14, Box with the knob moving",
        moving_knob(Policy::HoldOn, 1248),
    )
}
