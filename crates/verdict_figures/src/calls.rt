// The calls that this program alone compares: buffers of reports, verdicts at a tempo, quotes, a file written back.

use cases::file::described;
use cases::page::begins;
use cases::verdict::verdict_of;
use cases::{Tally, build, counted, is_outcome, tells};
use model::{Description, Policy, Verdict};
use refusals::number_of;

// The number of the refusal of a report into a part of a page, or 0.
fn refusal(p: Policy, file: &[u8], page: &mut [u8], size: usize) -> usize {
    if page.len() < size {
        return 0;
    }
    match report::report(p, file, &mut page[..size]) {
        Ok(_) => 0,
        Err(rejection) => number_of(rejection.why),
    }
}

// The report of a file fills a buffer of `size` bytes, number 0, or is refused with a number.
pub fn fills(t: Tally, file: &[u8], size: usize, number: usize) -> Tally {
    let mut page = [0u8; report::LONGEST];
    counted(t, refusal(t.policy, file, &mut page, size) == number)
}

fn fills_front(t: Tally, page: &[u8], n: usize, size: usize, number: usize) -> Tally {
    if page.len() < n {
        return counted(t, false);
    }
    fills(t, &page[..n], size, number)
}

// The longest file, whose report is the longest one.
pub fn longest(t: Tally, size: usize, number: usize) -> Tally {
    let mut page = [0u8; 2048];
    build::fill(&mut page, 32, 16);
    fills_front(t, &page, 1872, size, number)
}

// A file is read and written back byte for byte.
pub fn writes_back(t: Tally, file: &[u8]) -> Tally {
    let mut page = [0u8; 1872];
    let Ok(n) = files::write(described(file), &mut page) else {
        return counted(t, false);
    };
    counted(t, begins(&page, n, file))
}

// The verdict call at tempo T is done, number 0, or refused with a number.
pub fn judged_at(t: Tally, file: &[u8], tempo: u32, number: usize) -> Tally {
    let v = verdicts::verdicts(t.policy, described(file), tempo);
    counted(t, is_outcome(v.outcome, number, 0))
}

// The link at a place counted from 1 is in doubt at a tempo, with a spacing.
pub fn doubtful(t: Tally, file: &[u8], tempo: u32, place: usize, spacing: u32) -> Tally {
    let Verdict::Doubt(m) = verdict_of(t.policy, file, tempo, place) else {
        return counted(t, false);
    };
    counted(t, m == spacing)
}

// The quote of a record is a tempo, number 0, or refused with a number and a place.
pub fn quotes(t: Tally, d: Description, number: usize, value: u32) -> Tally {
    let quote = quotes::quote(t.policy, d).map(|q| q as usize);
    counted(t, tells(quote, number, value as usize))
}

// The quote of a file's record.
pub fn quotes_file(t: Tally, file: &[u8], number: usize, value: u32) -> Tally {
    quotes(t, described(file), number, value)
}
