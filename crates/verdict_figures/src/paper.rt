// What papers print: document 000's example, and published response times.

use cases::page::reports;
use cases::verdict::{held, load, load_of};
use cases::{Tally, counted};
use std::io;

// Document 000's Figure 1: runs 2, 1, 2, 1, 2; source 33 has the spacing 20; a reading of source 34 may be missed.
fn paper(spacing: u8) -> [u8; 97] {
    let mut file =
        *b"\x01\x00\x04\x00\x00\x00\x02\x01\x00\x04\x00\x00\x00\x01\x01\x00\x04\x00\x00\x00\x02\x01\x00\x04\x00\x00\x00\x01\x01\x00\x04\x00\x00\x00\x02\x02\x00\x04\x00\x00\x00\x14\x02\x00\x04\x00\x00\x00\x00\x04\x00\x03\x01\x02\x01\x04\x00\x03\x01\x05\x01\x04\x00\x03\x02\x04\x01\x04\x00\x03\x04\x03\x01\x04\x00\x03\x05\x03\x01\x04\x00\x03\x05\x04\x01\x04\x00\x03\x21\x01\x01\x04\x00\x03\x22\x02\x00";
    file[48] = spacing;
    file
}

// Its link 33>1 is held with the delay 19.
fn paper_delay(t: Tally, spacing: u8) -> Tally {
    held(t, &paper(spacing), 200, 7, 19, 20)
}

// Document 000, section 4.2: the delay of (7, 1) is 19, whatever the spacing of its task 6 from 10 to 14.
// Its tasks 7 and 6 are the sources 33 and 34 here.
pub fn paper_delays(rt: &HostRuntime) -> io::Result<()> {
    let mut t = cases::none();
    t = paper_delay(t, 10);
    t = paper_delay(t, 11);
    t = paper_delay(t, 12);
    t = paper_delay(t, 13);
    t = paper_delay(t, 14);
    cases::print(rt, "document 000, delays", t)
}

const PAPER_REPORT: [u8; 187] =
    *b"tempo 300.0\nlink 1 1>2 held order\nlink 2 1>5 held order\nlink 3 2>4 held order\nlink 4 4>3 held order\nlink 5 5>3 held order\nlink 6 5>4 held order\nlink 7 33>1 held 19 of 20\nlink 8 34>2 free\n";

fn paper_page(t: Tally, spacing: u8) -> Tally {
    reports(t, &paper(spacing), &PAPER_REPORT)
}

// Figure 1 as a whole: every event that theorem 1 speaks of is held.
pub fn paper_report(rt: &HostRuntime) -> io::Result<()> {
    let mut t = paper_page(cases::none(), 10);
    t = paper_page(t, 14);
    cases::print(rt, "document 000, report", t)
}

// added(i, j) is what load(i, j) has above load(i, j + 1).
fn added(t: Tally, file: &[u8], i: usize, j: usize, expected: u64) -> Tally {
    let here = load_of(file, i, j);
    let above = if j < 32 { load_of(file, i, j + 1) } else { 0 };
    counted(t, here == above.wrapping_add(expected))
}

fn adds(t: Tally, i: usize, j: usize, expected: u64) -> Tally {
    added(t, &paper(10), i, j, expected)
}

// Document 000, section 4.3: every λ that it prints.
pub fn paper_added(rt: &HostRuntime) -> io::Result<()> {
    let mut t = cases::none();
    t = adds(t, 4, 3, 2);
    t = adds(t, 2, 3, 2);
    t = adds(t, 2, 4, 1);
    t = adds(t, 5, 3, 2);
    t = adds(t, 5, 4, 1);
    t = adds(t, 1, 2, 4);
    t = adds(t, 1, 3, 2);
    t = adds(t, 1, 4, 1);
    t = adds(t, 1, 5, 2);
    t = adds(t, 33, 1, 11);
    t = adds(t, 34, 2, 4);
    cases::print(rt, "document 000, added loads", t)
}

// Document 000, section 4.2: δ(7, 1) and δ(6, 1).
pub fn paper_loads(rt: &HostRuntime) -> io::Result<()> {
    let mut t = cases::none();
    t = load(t, &paper(10), 33, 1, 11);
    t = load(t, &paper(10), 34, 1, 4);
    cases::print(rt, "document 000, loads", t)
}

// Burns and Wellings: runs 3, 3, 5 with spacings 7, 12 and, as published, 20, the highest priority first; each task has
// a source of its own.
fn burns_wellings(spacing: u8) -> [u8; 60] {
    let mut file =
        *b"\x01\x00\x04\x00\x00\x00\x05\x01\x00\x04\x00\x00\x00\x03\x01\x00\x04\x00\x00\x00\x03\x02\x00\x04\x00\x00\x00\x14\x02\x00\x04\x00\x00\x00\x0c\x02\x00\x04\x00\x00\x00\x07\x04\x00\x03\x21\x01\x01\x04\x00\x03\x22\x02\x01\x04\x00\x03\x23\x03\x01";
    file[27] = spacing;
    file
}

// Lehoczky, Sha and Ding: runs 40, 40, 100 with spacings 100, 150, 350.
const LEHOCZKY_SHA_DING: [u8; 60] =
    *b"\x01\x00\x04\x00\x00\x00\x64\x01\x00\x04\x00\x00\x00\x28\x01\x00\x04\x00\x00\x00\x28\x02\x00\x04\x00\x00\x01\x5e\x02\x00\x04\x00\x00\x00\x96\x02\x00\x04\x00\x00\x00\x64\x04\x00\x03\x21\x01\x01\x04\x00\x03\x22\x02\x01\x04\x00\x03\x23\x03\x01";

// Independent tasks: delays are the published response times, 3, 6, 20 (doubtful at 20, since not below it) and 40, 80,
// 300.
pub fn published(rt: &HostRuntime) -> io::Result<()> {
    let mut t = cases::none();
    t = reports(
        t,
        &burns_wellings(20),
        b"tempo none\nlink 1 33>1 doubt of 20\nlink 2 34>2 held 6 of 12\nlink 3 35>3 held 3 of 7\n",
    );
    t = reports(
        t,
        &burns_wellings(21),
        b"tempo 300.0\nlink 1 33>1 held 20 of 21\nlink 2 34>2 held 6 of 12\nlink 3 35>3 held 3 of 7\n",
    );
    t = reports(
        t,
        &LEHOCZKY_SHA_DING,
        b"tempo 300.0\nlink 1 33>1 held 300 of 350\nlink 2 34>2 held 80 of 150\nlink 3 35>3 held 40 of 100\n",
    );
    cases::print(rt, "published response times", t)
}
