// A data file of reports repeats: the length of a file in two bytes, high byte first, the file, the length of its report, the report.

use crate::parts::{Tally, counted, part};
use model::Policy;

// Whether the report of a file is the expected one.
fn agrees(p: Policy, file: &[u8], expected: &[u8]) -> bool {
    let mut page = [0u8; report::LONGEST];
    let n = report::put_whole(p, file, &mut page);
    &page[..n] == expected
}

// All cases of the vectors: each says itself how long it is, so these are no `chunks`.
pub fn compare_all(p: Policy, s: &[u8]) -> Tally {
    let mut t = Tally::default();
    let mut left = s;
    while !left.is_empty() {
        let (file, behind) = part(left);
        let (expected, behind) = part(behind);
        t = counted(t, agrees(p, file, expected));
        left = behind;
    }
    t
}
