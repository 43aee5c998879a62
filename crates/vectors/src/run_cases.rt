// data/latched-runs.bin repeats four parts, each a length in two bytes, high byte first, and its bytes: a file, its calls of six bytes each,
// their recorded outcomes, and the record after the last call; so does data/latched-hold-runs.bin, of the hold-on model. data/knob-runs.bin
// and data/hold-runs.bin are of the machines before C-15, with a record of 768 bytes. data/steady-runs.bin has document 01's runs, each at one
// tempo, in the same form (tools/steady-runs), with document 01's record of 736 bytes and the tempo behind it. Of these three the runs are kept in
// which no event comes for a task part done, which C-15 leaves as they were.

use crate::parts::{Tally, counted, part};
use crate::record_bytes::{begins, unlatched};
use model::{Machine, Policy};

// Whether a record is the recorded one, or one from before C-15 without its marks. Of document 01's the ages are not compared: they were counted
// up to the spacing at the run's tempo, and are now counted up to the spacing at 20.0.
fn same_record(m: Machine, recorded: &[u8]) -> bool {
    let n = recorded.len();
    if n == layout::RECORD {
        return begins(m, recorded);
    }
    if !unlatched(m) {
        return false;
    }
    if n == 738 {
        return begins(m, &recorded[..672]);
    }
    n == 768 && begins(m, recorded)
}

// Whether the calls of a file end as recorded, and leave the recorded record.
fn agrees(p: Policy, file: &[u8], calls: &[u8], recorded: &[u8], record: &[u8]) -> bool {
    let mut outcomes = [255u8; 1024];
    let ran = ticks::run(p, files::read(file).description, calls, &mut outcomes);
    if ran.outcome.is_err() || calls.len() / 6 != recorded.len() {
        return false;
    }
    outcomes.get(..recorded.len()) == Some(recorded) && same_record(ran.machine, record)
}

// All runs of the vectors: each says itself how long it is, so these are no `chunks`.
pub fn compare_all(p: Policy, s: &[u8]) -> Tally {
    let mut t = Tally::default();
    let mut left = s;
    while !left.is_empty() {
        let (file, behind) = part(left);
        let (calls, behind) = part(behind);
        let (recorded, behind) = part(behind);
        let (record, behind) = part(behind);
        t = counted(t, agrees(p, file, calls, recorded, record));
        left = behind;
    }
    t
}
