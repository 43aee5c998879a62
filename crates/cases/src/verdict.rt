// Figures of loads and verdicts.

use crate::file::described;
use crate::{Tally, counted};
use model::{Policy, Verdict};

// The verdict on the link at a place counted from 1, at a tempo.
pub fn verdict_of(p: Policy, file: &[u8], tempo: u32, place: usize) -> Verdict {
    let v = verdicts::verdicts(p, described(file), tempo);
    if place < 1 || 256 < place {
        return Verdict::Free;
    }
    v.slots[place - 1].verdict
}

// The link is held, with a delay below a spacing.
pub fn held(t: Tally, file: &[u8], tempo: u32, place: usize, delay: u32, spacing: u32) -> Tally {
    let Verdict::Held(d, m) = verdict_of(t.policy, file, tempo, place) else {
        return counted(t, false);
    };
    counted(t, (d == delay) & (m == spacing))
}

// load(i, j), or 0 where there is none.
pub fn load_of(file: &[u8], i: usize, j: usize) -> u64 {
    let sheet = files::load_sheet(described(file));
    if i < 1 || 48 < i || j < 1 || 32 < j {
        return 0;
    }
    sheet.rows[i - 1].loads[j - 1]
}

// load(i, j) is this.
pub fn load(t: Tally, file: &[u8], i: usize, j: usize, expected: u64) -> Tally {
    counted(t, load_of(file, i, j) == expected)
}
