// The figures of the machine: document 01's P5 and P9, ticks of a lent record, the rules of the record, a swung source,
// the hold-on model, and latched inputs.
#![tactic(auto)]

use cases::example::{swung, twin};
use cases::file::described;
use cases::tick::{after, arriving, idle};
use cases::{Tally, tick};
use model::{Description, Machine, Policy};
use std::io;

mod calls;
mod latch;

// P5: Twin with the spacing 7 and arrivals at ticks 0, 7, 14 and 21: 33>1 is dropped at tick 21 and not before.
fn marked_drop(rt: &HostRuntime) -> io::Result<()> {
    let mut t = cases::none();
    t = calls::drops(
        t,
        &twin(7),
        b"\x00\x01\x00\xc8\x00\x00\x00\x00\x00\xc8\x00\x00\x00\x00\x00\xc8\x00\x00\x00\x00\x00\xc8\x00\x00\x00\x00\x00\xc8\x00\x00\x00\x00\x00\xc8\x00\x00\x00\x00\x00\xc8\x00\x00\x00\x01\x00\xc8\x00\x00\x00\x00\x00\xc8\x00\x00\x00\x00\x00\xc8\x00\x00\x00\x00\x00\xc8\x00\x00\x00\x00\x00\xc8\x00\x00\x00\x00\x00\xc8\x00\x00\x00\x00\x00\xc8\x00\x00\x00\x01\x00\xc8\x00\x00\x00\x00\x00\xc8\x00\x00\x00\x00\x00\xc8\x00\x00\x00\x00\x00\xc8\x00\x00\x00\x00\x00\xc8\x00\x00\x00\x00\x00\xc8\x00\x00\x00\x00\x00\xc8\x00\x00",
        3,
        false,
    );
    t = calls::drops(
        t,
        &twin(7),
        b"\x00\x01\x00\xc8\x00\x00\x00\x00\x00\xc8\x00\x00\x00\x00\x00\xc8\x00\x00\x00\x00\x00\xc8\x00\x00\x00\x00\x00\xc8\x00\x00\x00\x00\x00\xc8\x00\x00\x00\x00\x00\xc8\x00\x00\x00\x01\x00\xc8\x00\x00\x00\x00\x00\xc8\x00\x00\x00\x00\x00\xc8\x00\x00\x00\x00\x00\xc8\x00\x00\x00\x00\x00\xc8\x00\x00\x00\x00\x00\xc8\x00\x00\x00\x00\x00\xc8\x00\x00\x00\x01\x00\xc8\x00\x00\x00\x00\x00\xc8\x00\x00\x00\x00\x00\xc8\x00\x00\x00\x00\x00\xc8\x00\x00\x00\x00\x00\xc8\x00\x00\x00\x00\x00\xc8\x00\x00\x00\x00\x00\xc8\x00\x00\x00\x01\x00\xc8\x00\x00",
        3,
        true,
    );
    cases::print(rt, "P5", t)
}

// A source with the spacing 5.
fn spaced(t: Tally, calls: &[u8], k: usize, number: u8) -> Tally {
    tick::call_is(
        t,
        b"\x01\x00\x04\x00\x00\x00\x01\x02\x00\x04\x00\x00\x00\x05",
        calls,
        k,
        number,
    )
}

// It comes at tick 0, and at 4 or at 5.
fn at_four(t: Tally, k: usize, number: u8) -> Tally {
    spaced(
        t,
        b"\x00\x01\x00\xc8\x00\x00\x00\x00\x00\xc8\x00\x00\x00\x00\x00\xc8\x00\x00\x00\x00\x00\xc8\x00\x00\x00\x01\x00\xc8\x00\x00",
        k,
        number,
    )
}

fn at_five(t: Tally, k: usize, number: u8) -> Tally {
    spaced(
        t,
        b"\x00\x01\x00\xc8\x00\x00\x00\x00\x00\xc8\x00\x00\x00\x00\x00\xc8\x00\x00\x00\x00\x00\xc8\x00\x00\x00\x00\x00\xc8\x00\x00\x00\x01\x00\xc8\x00\x00",
        k,
        number,
    )
}

// P9: spacing 5; arrivals at ticks 0 and 4 give 14, 0 and 5 pass.
fn marked_ticks(rt: &HostRuntime) -> io::Result<()> {
    let mut t = cases::none();
    t = at_four(t, 0, 0);
    t = at_four(t, 4, 14);
    t = at_five(t, 0, 0);
    t = at_five(t, 5, 0);
    cases::print(rt, "P9", t)
}

// One task of run 3, a source of spacing 5, and the link between them.
fn single() -> Description {
    described(b"\x01\x00\x04\x00\x00\x00\x03\x02\x00\x04\x00\x00\x00\x05\x04\x00\x03\x21\x01\x00")
}

// Its record after a tick in which its source comes or not, and in which the task may end.
fn single_later(m: Machine, comes: bool, finish: bool) -> Machine {
    tick::later_on(
        Policy::Preemptive,
        single(),
        200,
        m,
        arriving(comes, false),
        finish,
    )
}

// A tick of it in which sources come is done, number 0, or refused with a number.
fn single_tick(t: Tally, m: Machine, first: bool, second: bool, number: usize) -> Tally {
    tick::ticks_once(t, single(), 200, m, arriving(first, second), number)
}

// Three ticks of a run, one that ends early, and the refusals of an arrival, which leave the record as it was.
fn ticking(rt: &HostRuntime) -> io::Result<()> {
    let mut m = idle(single());
    let mut t = calls::shows(cases::none(), m, 0, 5, false);
    let first = single_later(m, true, false);
    t = calls::shows(t, first, 1, 1, true);
    m = single_later(first, false, false);
    t = calls::shows(t, m, 2, 2, true);
    m = single_later(m, false, false);
    t = calls::shows(t, m, 0, 3, false);
    m = single_later(first, false, true);
    t = calls::shows(t, m, 0, 2, false);
    t = single_tick(t, first, true, false, 14);
    m = single_later(first, true, false);
    t = calls::shows(t, m, 1, 1, true);
    t = single_tick(t, first, false, true, 15);
    t = single_tick(t, first, true, true, 15);
    m = first;
    m.used[0] = 3;
    t = single_tick(t, m, true, true, 16);
    cases::print(rt, "ticks of a lent record", t)
}

// A tick without arrivals of it.
fn single_still(t: Tally, m: Machine, number: usize) -> Tally {
    tick::ticks_still(t, single(), m, number)
}

// 16 by the rules of what is there: used time, waiting links and ages.
fn present_rules(t: Tally, idle: Machine) -> Tally {
    let mut t = single_still(t, idle, 0);
    let mut m = single_later(idle, true, false);
    m.used[0] = 2;
    t = single_still(t, m, 0);
    m.used[0] = 3;
    t = single_still(t, m, 16);
    m = idle;
    m.used[0] = 1;
    t = single_still(t, m, 16);
    m = idle;
    m.waiting[0] = true;
    t = single_still(t, m, 16);
    m = idle;
    m.ages[0] = 6;
    single_still(t, m, 16)
}

// 16 by the rules of what is absent.
fn absent_rules(t: Tally, idle: Machine) -> Tally {
    let mut m = idle;
    m.awake[1] = true;
    let mut t = single_still(t, m, 16);
    m = idle;
    m.used[1] = 1;
    t = single_still(t, m, 16);
    m = idle;
    m.waiting[1] = true;
    t = single_still(t, m, 16);
    m = idle;
    m.dropped[1] = true;
    t = single_still(t, m, 16);
    m = idle;
    m.ages[1] = 1;
    single_still(t, m, 16)
}

// 16 by each rule of the record; a dropped mark and an awake task without an event break none.
fn rules(rt: &HostRuntime) -> io::Result<()> {
    let mut m = idle(single());
    let mut t = present_rules(cases::none(), m);
    t = absent_rules(t, m);
    m.dropped[0] = true;
    m.awake[0] = true;
    t = single_still(t, m, 0);
    cases::print(rt, "rules of the record", t)
}

// A source of 960 pulses with a swing of 75.
fn swung_record() -> Description {
    described(&swung(960, 75))
}

// A tick in which it comes.
fn swung_tick(t: Tally, m: Machine, number: usize) -> Tally {
    tick::ticks_once(t, swung_record(), 200, m, arriving(true, false), number)
}

// A swung source on the machine: at 20.0 its spacing is 1,562.
fn swung_ticks(rt: &HostRuntime) -> io::Result<()> {
    let mut m = idle(swung_record());
    let mut t = calls::shows(cases::none(), m, 0, 1562, false);
    t = swung_tick(t, m, 0);
    m.ages[0] = 1561;
    m.fastest[0] = 200;
    t = swung_tick(t, m, 14);
    m.ages[0] = 1563;
    t = swung_tick(t, m, 16);
    cases::print(rt, "C-11, ticks", t)
}

// A task of run 3 and a higher one of run 1, each with a fixed source of 10 of its own; both links are critical.
const PAIR: [u8; 40] =
    *b"\x01\x00\x04\x00\x00\x00\x03\x01\x00\x04\x00\x00\x00\x01\x02\x00\x04\x00\x00\x00\x0a\x02\x00\x04\x00\x00\x00\x0a\x04\x00\x03\x21\x01\x01\x04\x00\x03\x22\x02\x01";

fn pair_later(p: Policy, m: Machine, first: bool, second: bool) -> Machine {
    after(p, described(&PAIR), m, first, second)
}

// Source 33 comes in the first of four ticks and source 34 in the second. The lower task runs on to its end, and the
// higher one then.
fn held_on(t: Tally, idle: Machine) -> Tally {
    let p = Policy::HoldOn;
    let mut m = pair_later(p, idle, true, false);
    let mut t = calls::tasks(t, m, 1, true, false);
    m = pair_later(p, m, false, true);
    t = calls::tasks(t, m, 2, true, true);
    m = pair_later(p, m, false, false);
    t = calls::tasks(t, m, 0, false, true);
    m = pair_later(p, m, false, false);
    t = calls::tasks(t, m, 0, false, false);
    m = pair_later(p, idle, true, true);
    t = calls::tasks(t, m, 0, true, false);
    m = pair_later(p, m, false, false);
    calls::tasks(t, m, 1, true, false)
}

// On the preemptive model the higher one runs at once. Where both come in the first tick, the higher one is chosen on
// either model.
fn holding(rt: &HostRuntime) -> io::Result<()> {
    let idle = idle(described(&PAIR));
    let mut t = held_on(cases::hold(), idle);
    let p = Policy::Preemptive;
    let mut m = pair_later(p, idle, true, false);
    t = calls::tasks(t, m, 1, true, false);
    m = pair_later(p, m, false, true);
    t = calls::tasks(t, m, 1, true, false);
    m = pair_later(p, idle, true, true);
    t = calls::tasks(t, m, 0, true, false);
    cases::print(rt, "C-14, the task that runs", t)
}

// Two tasks of run 3.
fn two_tasks() -> Description {
    described(b"\x01\x00\x04\x00\x00\x00\x03\x01\x00\x04\x00\x00\x00\x03")
}

// The rule that at most one task is part done is the hold-on model's alone: one of two tasks of run 3, then both, which
// gives 16; on the preemptive model it passes.
fn parts_done(rt: &HostRuntime) -> io::Result<()> {
    let mut m = idle(two_tasks());
    m.awake[0] = true;
    m.used[0] = 1;
    let mut t = tick::ticks_still(cases::hold(), two_tasks(), m, 0);
    m.awake[1] = true;
    t = tick::ticks_still(t, two_tasks(), m, 0);
    m.used[1] = 1;
    t = tick::ticks_still(t, two_tasks(), m, 16);
    t = cases::on(Policy::Preemptive, t);
    t = tick::ticks_still(t, two_tasks(), m, 0);
    cases::print(rt, "C-14, rules of the record", t)
}

fn main(rt: HostRuntime) -> io::Result<()> {
    marked_drop(&rt)?;
    marked_ticks(&rt)?;
    ticking(&rt)?;
    rules(&rt)?;
    swung_ticks(&rt)?;
    holding(&rt)?;
    parts_done(&rt)?;
    latch::readings(&rt)?;
    latch::late_events(&rt)?;
    latch::late_drops(&rt)?;
    latch::nested(&rt)?;
    latch::latched(&rt)
}
