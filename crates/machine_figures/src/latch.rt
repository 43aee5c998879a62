// Latched inputs (C-15), on both models: what a run reads when it begins, and the marks "again" and "late".

use cases::file::described;
use cases::tick::{after, arriving, idle};
use cases::verdict::held;
use cases::{Tally, counted, tick};
use model::{Description, Machine, Policy};
use std::io;

// Of a record whether the first task is awake, its used, and whether it is marked again.
fn first_task(t: Tally, m: Machine, awake: bool, used: u32, again: bool) -> Tally {
    counted(
        t,
        (m.awake[0] == awake) & (m.used[0] == used) & (m.again[0] == again),
    )
}

// Of a record whether the first two links wait.
fn waits(t: Tally, m: Machine, first: bool, second: bool) -> Tally {
    counted(t, (m.waiting[0] == first) & (m.waiting[1] == second))
}

// Of a record whether the first two links are late.
fn lates(t: Tally, m: Machine, first: bool, second: bool) -> Tally {
    counted(t, (m.late[0] == first) & (m.late[1] == second))
}

// A task that two fixed sources of 10 wake; both links are critical.
fn scan(run: u8) -> [u8; 33] {
    let mut file =
        *b"\x01\x00\x04\x00\x00\x00\x00\x02\x00\x04\x00\x00\x00\x0a\x02\x00\x04\x00\x00\x00\x0a\x04\x00\x03\x21\x01\x01\x04\x00\x03\x22\x01\x01";
    file[6] = run;
    file
}

// A task of run 4, a fixed source of 2, and the link between them.
const QUICK: [u8; 20] =
    *b"\x01\x00\x04\x00\x00\x00\x04\x02\x00\x04\x00\x00\x00\x02\x04\x00\x03\x21\x01\x00";

// Tasks of run 3 and 1, each with a fixed source of 10 of its own, and a link from the higher task to the lower one, at
// the first place.
const NESTED: [u8; 46] =
    *b"\x01\x00\x04\x00\x00\x00\x03\x01\x00\x04\x00\x00\x00\x01\x02\x00\x04\x00\x00\x00\x0a\x02\x00\x04\x00\x00\x00\x0a\x04\x00\x03\x02\x01\x00\x04\x00\x03\x21\x01\x00\x04\x00\x03\x22\x02\x00";

// C-15: source 34 comes at the second and last tick of a run, which has read its inputs, and its event waits for the
// next run. So the first event waits two ticks and this one three; each is printed with 4.
fn reading(t: Tally) -> Tally {
    let p = t.policy;
    let d = described(&scan(2));
    let mut t = held(t, &scan(2), 200, 1, 4, 10);
    t = held(t, &scan(2), 200, 2, 4, 10);
    let mut m = after(p, d, idle(d), true, false);
    t = waits(t, m, true, false);
    m = after(p, d, m, false, true);
    t = waits(t, m, false, true);
    m = after(p, d, m, false, false);
    t = waits(t, m, false, true);
    m = after(p, d, m, false, false);
    waits(t, m, false, false)
}

pub fn readings(rt: &HostRuntime) -> io::Result<()> {
    let t = cases::on(Policy::HoldOn, reading(cases::none()));
    cases::print(rt, "C-15, inputs read when a run begins", reading(t))
}

// The marks of a run of three ticks, of which source 34 comes at the second, and of the run that takes its event; and
// of a first run that finishes at its second tick.
fn late_event(t: Tally) -> Tally {
    let p = t.policy;
    let d = described(&scan(3));
    let begun = after(p, d, idle(d), true, false);
    let mut t = first_task(t, begun, true, 1, false);
    t = waits(t, begun, true, false);
    t = lates(t, begun, false, false);
    let late = after(p, d, begun, false, true);
    t = first_task(t, late, true, 2, true);
    t = waits(t, late, true, true);
    t = lates(t, late, false, true);
    let ended = after(p, d, late, false, false);
    t = first_task(t, ended, true, 0, false);
    t = waits(t, ended, false, true);
    t = lates(t, ended, false, false);
    let mut m = after(p, d, ended, false, false);
    t = first_task(t, m, true, 1, false);
    m = after(p, d, m, false, false);
    t = waits(t, m, false, true);
    t = lates(t, m, false, false);
    m = after(p, d, m, false, false);
    t = first_task(t, m, false, 0, false);
    t = waits(t, m, false, false);
    m = tick::later_on(p, d, 200, begun, arriving(false, true), true);
    t = first_task(t, m, true, 0, false);
    t = waits(t, m, false, true);
    lates(t, m, false, false)
}

pub fn late_events(rt: &HostRuntime) -> io::Result<()> {
    let t = cases::on(Policy::HoldOn, late_event(cases::none()));
    cases::print(rt, "C-15, a late event", late_event(t))
}

// A source that comes at the third tick of a run of four, while its event waits: that is a drop, and late.
fn late_drop(t: Tally) -> Tally {
    let p = t.policy;
    let d = described(&QUICK);
    let mut m = after(p, d, idle(d), true, false);
    m = after(p, d, m, false, false);
    m = after(p, d, m, true, false);
    let mut t = counted(t, m.dropped[0]);
    t = lates(t, m, true, false);
    t = first_task(t, m, true, 3, true);
    m = after(p, d, m, false, false);
    t = first_task(t, m, true, 0, false);
    t = waits(t, m, true, false);
    lates(t, m, false, false)
}

pub fn late_drops(rt: &HostRuntime) -> io::Result<()> {
    let t = cases::on(Policy::HoldOn, late_drop(cases::none()));
    cases::print(rt, "C-15, a late drop", late_drop(t))
}

// An event from a task, for one that it interrupted.
fn interrupted(t: Tally, d: Description) -> Tally {
    let p = Policy::Preemptive;
    let mut m = after(p, d, idle(d), true, false);
    m = after(p, d, m, false, true);
    let mut t = first_task(t, m, true, 1, true);
    t = waits(t, m, true, true);
    t = lates(t, m, true, false);
    m = after(p, d, m, false, false);
    m = after(p, d, m, false, false);
    t = first_task(t, m, true, 0, false);
    t = waits(t, m, true, false);
    lates(t, m, false, false)
}

// On the hold-on model the lower task has ended before.
fn uninterrupted(t: Tally, d: Description) -> Tally {
    let p = Policy::HoldOn;
    let mut m = after(p, d, idle(d), true, false);
    m = after(p, d, m, false, true);
    m = after(p, d, m, false, false);
    let mut t = first_task(t, m, false, 0, false);
    m = after(p, d, m, false, false);
    t = first_task(t, m, true, 0, false);
    t = waits(t, m, true, false);
    lates(t, m, false, false)
}

pub fn nested(rt: &HostRuntime) -> io::Result<()> {
    let d = described(&NESTED);
    let t = uninterrupted(interrupted(cases::none(), d), d);
    cases::print(rt, "C-15, an interrupted task", t)
}

fn scan_record() -> Description {
    described(&scan(3))
}

// A tick of it without arrivals.
fn scan_still(t: Tally, m: Machine, number: usize) -> Tally {
    tick::ticks_still(t, scan_record(), m, number)
}

// 16 by the rule of late marks: only on a waiting link into a task marked "again".
fn late_rules(t: Tally, part_done: Machine) -> Tally {
    let mut m = part_done;
    m.late[0] = true;
    let mut t = scan_still(t, m, 16);
    m.again[0] = true;
    t = scan_still(t, m, 0);
    m.late[1] = true;
    t = scan_still(t, m, 16);
    m.waiting[1] = true;
    t = scan_still(t, m, 0);
    m.late[2] = true;
    t = scan_still(t, m, 16);
    m.waiting[2] = true;
    t = scan_still(t, m, 16);
    m = part_done;
    m.late[255] = true;
    scan_still(t, m, 16)
}

// 16 by the rule of the marks "again": only on a task part done, with or without a late link.
fn again_rules(t: Tally, part_done: Machine) -> Tally {
    let mut m = part_done;
    m.again[0] = true;
    let mut t = scan_still(t, m, 0);
    m.again[1] = true;
    t = scan_still(t, m, 16);
    m = part_done;
    m.again[0] = true;
    m.used[0] = 0;
    t = scan_still(t, m, 16);
    m = part_done;
    m.again[31] = true;
    scan_still(t, m, 16)
}

// The rules of these marks; a task with a mark and no late link ends at its last tick.
fn latch_rules(t: Tally) -> Tally {
    let p = t.policy;
    let d = scan_record();
    let mut m = after(p, d, idle(d), true, false);
    let mut t = late_rules(t, m);
    t = again_rules(t, m);
    m.again[0] = true;
    m.used[0] = 2;
    m = after(p, d, m, false, false);
    t = first_task(t, m, true, 0, false);
    waits(t, m, false, false)
}

pub fn latched(rt: &HostRuntime) -> io::Result<()> {
    let t = cases::on(Policy::HoldOn, latch_rules(cases::none()));
    cases::print(rt, "C-15, rules of the record", latch_rules(t))
}
