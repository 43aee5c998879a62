// Figures of a report.

use crate::{Tally, counted};

// Whether the first n bytes of a page are a text.
pub fn begins(page: &[u8], n: usize, text: &[u8]) -> bool {
    page.get(..n) == Some(text)
}

// A file's report is the expected text.
pub fn reports(t: Tally, file: &[u8], text: &[u8]) -> Tally {
    let mut page = [0u8; report::LONGEST];
    let n = report::put_whole(t.policy, file, &mut page);
    counted(t, begins(&page, n, text))
}
