// The calls that this program alone compares: runs of a few calls, and what a record shows after single ticks.

use cases::file::described;
use cases::{Tally, counted};
use model::Machine;

// After a run of calls, six bytes each, the link at a place counted from 1 is dropped, or not.
pub fn drops(t: Tally, file: &[u8], calls: &[u8], place: usize, expected: bool) -> Tally {
    let d = described(file);
    let mut outcomes = [0u8; 64];
    let p = t.policy;
    let ran = ticks::run(p, d, calls, &mut outcomes);
    let m = ran.machine;
    if place < 1 {
        return counted(t, false);
    }
    if 256 < place {
        return counted(t, false);
    }
    counted(t, m.dropped[place - 1] == expected)
}

// Of a record the first task's used, the first age, and whether the first task is awake.
pub fn shows(t: Tally, m: Machine, used: u32, age: u32, awake: bool) -> Tally {
    counted(
        t,
        (m.used[0] == used) & (m.ages[0] == age) & (m.awake[0] == awake),
    )
}

// Of a record the first task's used, and whether the first two tasks are awake.
pub fn tasks(t: Tally, m: Machine, used: u32, first: bool, second: bool) -> Tally {
    counted(
        t,
        (m.used[0] == used) & (m.awake[0] == first) & (m.awake[1] == second),
    )
}
