// A machine's record as the vectors have it, in bytes: awake, used, waiting, dropped, ages, fastest tempos, again, late. Numbers have their
// high byte first; a tempo has two bytes, used and an age have four. Records from before C-15 end with the tempos.

use layout::put_record;
use model::Machine;

// Whether a record begins with the recorded bytes.
pub fn begins(m: Machine, recorded: &[u8]) -> bool {
    let mut bytes = [0u8; layout::RECORD];
    put_record(m, &mut bytes);
    bytes.get(..recorded.len()) == Some(recorded)
}

// Whether no task is marked again and no link late.
pub fn unlatched(m: Machine) -> bool {
    !m.again.contains(&true) && !m.late.contains(&true)
}
