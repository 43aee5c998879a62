// Figures of a start, of a run, and of a record before and after single ticks.

use crate::file::described;
use crate::{Tally, counted, is_outcome};
use model::{Arrivals, Description, Machine, Policy};

// A start is done, number 0, or refused with a number; its first source has an age and no kept tempo, and no task is
// awake.
pub fn starts(t: Tally, d: Description, number: usize, age: u32) -> Tally {
    let s = ticks::start(d);
    let m = s.machine;
    let asleep = !m.awake[0] & !m.awake[1];
    counted(
        t,
        is_outcome(s.outcome, number, 0) & (m.ages[0] == age) & (m.fastest[0] == 0) & asleep,
    )
}

// The record after a start.
pub fn idle(d: Description) -> Machine {
    ticks::start(d).machine
}

// A run of calls whose outcomes go to a buffer is done, number 0, or refused with a number.
pub fn runs(t: Tally, d: Description, calls: &[u8], outcomes: &mut [u8], number: usize) -> Tally {
    let ran = ticks::run(t.policy, d, calls, outcomes);
    counted(t, is_outcome(ran.outcome, number, 0))
}

// In a run of calls the call at a place counted from 0 is a tick, number 0, or refused with a number.
pub fn call_is(t: Tally, file: &[u8], calls: &[u8], k: usize, number: u8) -> Tally {
    let mut outcomes = [255u8; 64];
    ticks::run(t.policy, described(file), calls, &mut outcomes);
    counted(t, outcomes.get(k) == Some(&number))
}

// Arrivals of sources 33 and 34.
pub fn arriving(first: bool, second: bool) -> Arrivals {
    let mut marks = [false; 16];
    marks[0] = first;
    marks[1] = second;
    Arrivals { marks }
}

// One tick of a record is done, number 0, or refused with a number.
pub fn ticks_once(
    t: Tally,
    d: Description,
    tempo: u32,
    m: Machine,
    a: Arrivals,
    number: usize,
) -> Tally {
    let r = ticks::advanced(t.policy, d, tempo, m, a, false);
    counted(t, is_outcome(r.outcome, number, 0))
}

// A tick without arrivals at 20.0.
pub fn ticks_still(t: Tally, d: Description, m: Machine, number: usize) -> Tally {
    ticks_once(t, d, 200, m, arriving(false, false), number)
}

// A record after a tick at a tempo, on a model.
pub fn later_on(
    p: Policy,
    d: Description,
    tempo: u32,
    m: Machine,
    a: Arrivals,
    finish: bool,
) -> Machine {
    ticks::advanced(p, d, tempo, m, a, finish).machine
}

// A record after a tick at 20.0 in which source 33 comes, or source 34.
pub fn after(p: Policy, d: Description, m: Machine, first: bool, second: bool) -> Machine {
    later_on(p, d, 200, m, arriving(first, second), false)
}

// Of a record the first two sources' ages.
pub fn ages(t: Tally, m: Machine, first: u32, second: u32) -> Tally {
    counted(t, (m.ages[0] == first) & (m.ages[1] == second))
}
