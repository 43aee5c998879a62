// The figures of loads, verdicts, quotes and reports: tempos, buffers, what papers print, document 01's P1 to P4, P6 to
// P8 and P10, swing, a pulse of each kind, and Box and Twin on the hold-on model.
#![tactic(auto)]

use cases::example::{BOX, swung, twin};
use cases::page::reports;
use cases::verdict::{held, load};
use cases::{Tally, file, tick};
use model::{Description, Source, SourceSlot};
use std::io;

mod calls;
mod paper;

// Box with a swing of 66.
const SWUNG_BOX: [u8; 58] =
    *b"\x01\x00\x04\x00\x00\x01\x90\x01\x00\x04\x00\x00\x01\x2c\x01\x00\x04\x00\x00\x00\xc8\x03\x00\x03\x01\xe0\x42\x02\x00\x04\x00\x00\x07\xd0\x04\x00\x03\x02\x01\x00\x04\x00\x03\x02\x03\x01\x04\x00\x03\x21\x02\x01\x04\x00\x03\x22\x03\x01";

// Box with a fixed source of 701 in place of its pulse.
const FIXED_BOX: [u8; 59] =
    *b"\x01\x00\x04\x00\x00\x01\x90\x01\x00\x04\x00\x00\x01\x2c\x01\x00\x04\x00\x00\x00\xc8\x02\x00\x04\x00\x00\x02\xbd\x02\x00\x04\x00\x00\x07\xd0\x04\x00\x03\x02\x01\x00\x04\x00\x03\x02\x03\x01\x04\x00\x03\x21\x02\x01\x04\x00\x03\x22\x03\x01";

// A file of one task at a tempo: the verdict call is done, number 0, or refused with a number.
fn at_tempo(t: Tally, tempo: u32, number: usize) -> Tally {
    calls::judged_at(t, b"\x01\x00\x04\x00\x00\x00\x01", tempo, number)
}

// A tempo is 200 to 3,000.
fn tempos(rt: &HostRuntime) -> io::Result<()> {
    let mut t = cases::none();
    t = at_tempo(t, 199, 11);
    t = at_tempo(t, 200, 0);
    t = at_tempo(t, 3000, 0);
    t = at_tempo(t, 3001, 11);
    cases::print(rt, "tempos", t)
}

// The report of Box; a buffer that it just fills, and one that is a byte shorter; the same of the longest report.
fn pages(rt: &HostRuntime) -> io::Result<()> {
    let mut t = cases::none();
    t = reports(
        t,
        &BOX,
        b"tempo 178.3\nlink 1 2>1 free\nlink 2 2>3 held order\nlink 3 33>2 held 700 of 701\nlink 4 34>3 held 400 of 2000\n",
    );
    t = calls::fills(t, &BOX, 107, 0);
    t = calls::fills(t, &BOX, 106, 13);
    t = calls::longest(t, 11168, 0);
    t = calls::longest(t, 11167, 13);
    cases::print(rt, "reports and buffers", t)
}

// Box with a run of 0.
fn stopped() -> Description {
    let mut d = file::described(&BOX);
    d.runs[1] = 0;
    d
}

// The quote of a record: a tempo, 12, or what the record is refused for.
fn quotes(rt: &HostRuntime) -> io::Result<()> {
    let mut t = calls::quotes_file(cases::none(), &BOX, 0, 1783);
    t = calls::quotes_file(t, b"\x01\x00\x04\x00\x00\x00\x01", 0, 3000);
    t = twin_quote(t, 9, 0, 3000);
    t = twin_quote(t, 8, 12, 0);
    t = calls::quotes_file(t, b"", 8, 0);
    t = calls::quotes(t, stopped(), 6, 7);
    cases::print(rt, "quotes", t)
}

// P1, P2, P3.
fn marked_box(rt: &HostRuntime) -> io::Result<()> {
    let mut t = cases::none();
    t = file::reads(t, b"", 8, 0);
    t = reports(t, b"\x01\x00\x04\x00\x00\x00\x01", b"tempo 300.0\n");
    t = load(t, &BOX, 33, 1, 900);
    t = load(t, &BOX, 2, 3, 200);
    t = calls::writes_back(t, &BOX);
    t = held(t, &BOX, 1783, 3, 700, 701);
    t = calls::doubtful(t, &BOX, 1784, 3, 700);
    cases::print(rt, "P1 to P3", t)
}

// Twin's link 33>1 or 33>2 is held with a delay at a spacing; 33>1 is in doubt; its quote.
fn twin_held(t: Tally, spacing: u8, place: usize, delay: u32) -> Tally {
    held(t, &twin(spacing), 200, place, delay, spacing as u32)
}

fn twin_doubt(t: Tally, spacing: u8) -> Tally {
    calls::doubtful(t, &twin(spacing), 200, 3, spacing as u32)
}

fn twin_quote(t: Tally, spacing: u8, number: usize, value: u32) -> Tally {
    calls::quotes_file(t, &twin(spacing), number, value)
}

// P4: Twin with the spacings 9 and 8.
fn marked_twin(rt: &HostRuntime) -> io::Result<()> {
    let mut t = load(cases::none(), &twin(9), 33, 1, 8);
    t = twin_held(t, 9, 3, 8);
    t = twin_held(t, 9, 4, 6);
    t = twin_doubt(t, 8);
    cases::print(rt, "P4", t)
}

// P6 and P7.
fn marked_orders(rt: &HostRuntime) -> io::Result<()> {
    let mut t = cases::none();
    t = reports(
        t,
        b"\x01\x00\x04\x00\x00\x00\x01\x01\x00\x04\x00\x00\x00\x01\x01\x00\x04\x00\x00\x00\x01\x04\x00\x03\x01\x03\x00\x04\x00\x03\x03\x02\x01",
        b"tempo 300.0\nlink 1 1>3 free\nlink 2 3>2 held order\n",
    );
    t = reports(
        t,
        b"\x01\x00\x04\x00\x00\x00\x01\x01\x00\x04\x00\x00\x00\x01\x01\x00\x04\x00\x00\x00\x01\x02\x00\x04\x00\x00\x00\x64\x04\x00\x03\x01\x03\x00\x04\x00\x03\x03\x02\x01\x04\x00\x03\x21\x03\x00",
        b"tempo none\nlink 1 1>3 free\nlink 2 3>2 doubt order\nlink 3 33>3 free\n",
    );
    t = reports(
        t,
        b"\x01\x00\x04\x00\x00\x00\x01\x01\x00\x04\x00\x00\x00\x01\x01\x00\x04\x00\x00\x00\x01\x01\x00\x04\x00\x00\x00\x01\x04\x00\x03\x01\x03\x00\x04\x00\x03\x01\x04\x00\x04\x00\x03\x03\x04\x00\x04\x00\x03\x04\x02\x01",
        b"tempo none\nlink 1 1>3 free\nlink 2 1>4 free\nlink 3 3>4 free\nlink 4 4>2 doubt order\n",
    );
    cases::print(rt, "P6, P7", t)
}

// P8 and P10.
fn marked_others(rt: &HostRuntime) -> io::Result<()> {
    let mut t = cases::none();
    t = held(
        t,
        b"\x01\x00\x04\x00\x00\x00\x01\x03\x00\x02\x01\xe0\x04\x00\x03\x21\x01\x01",
        1200,
        1,
        1,
        1041,
    );
    t = held(
        t,
        b"\x01\x00\x04\x00\x00\x00\x01\x03\x00\x02\x00\x18\x04\x00\x03\x21\x01\x01",
        1200,
        1,
        1,
        20833,
    );
    t = file::reads(
        t,
        b"\x01\x00\x04\x00\x00\x00\x01\x01\x00\x04\x00\x00\x00\x01\x04\x00\x03\x01\x02\x00\x04\x00\x03\x01\x02\x00",
        4,
        20,
    );
    cases::print(rt, "P8, P10", t)
}

// The link of a paced source with a swing is held with the delay 1 at a spacing.
fn swung_spacing(t: Tally, pulses: u16, swing: u8, tempo: u32, spacing: u32) -> Tally {
    held(t, &swung(pulses, swing), tempo, 1, 1, spacing)
}

// C-11: 480 pulses at 120.0 with the swings 66 and 75; the least and the widest spacing with a swing.
fn swung_spacings(rt: &HostRuntime) -> io::Result<()> {
    let mut t = cases::none();
    t = swung_spacing(t, 480, 66, 1200, 708);
    t = swung_spacing(t, 480, 75, 1200, 520);
    t = swung_spacing(t, 960, 75, 3000, 104);
    t = swung_spacing(t, 1, 51, 200, 2940000);
    cases::print(rt, "C-11, spacings", t)
}

// Box with a swing of 66, and with one of 50.
fn swung_record() -> Description {
    file::described(&SWUNG_BOX)
}

fn straight() -> Description {
    let mut d = swung_record();
    d.sources[0] = SourceSlot {
        source: Source::Swung(480, 50),
    };
    d
}

// Box with a swing of 66: its report, its file, its field from a reading place, its quote, and its first source's age
// at a start.
fn swung_box(rt: &HostRuntime) -> io::Result<()> {
    let mut t = reports(
        cases::none(),
        &SWUNG_BOX,
        b"tempo 121.2\nlink 1 2>1 free\nlink 2 2>3 held order\nlink 3 33>2 held 700 of 701\nlink 4 34>3 held 400 of 2000\n",
    );
    t = calls::writes_back(t, &SWUNG_BOX);
    t = file::takes_field(t, &SWUNG_BOX, 21, 27);
    t = calls::doubtful(t, &SWUNG_BOX, 1213, 3, 700);
    t = calls::quotes(t, swung_record(), 0, 1212);
    t = tick::starts(t, swung_record(), 0, 4250);
    t = file::judges(t, straight(), 6, 21);
    cases::print(rt, "C-11, Box", t)
}

// A link of Box at 178.3, and of Box with a swing of 66 at 121.2.
fn paced_alike(t: Tally, place: usize, delay: u32, spacing: u32) -> Tally {
    let t = held(t, &BOX, 1783, place, delay, spacing);
    held(t, &SWUNG_BOX, 1212, place, delay, spacing)
}

// C-12: Box at 178.3, with a swing of 66 at 121.2 and with a fixed source at any tempo has the same spacings, and so
// the same verdicts.
fn alike(rt: &HostRuntime) -> io::Result<()> {
    let mut t = reports(
        cases::none(),
        &FIXED_BOX,
        b"tempo 300.0\nlink 1 2>1 free\nlink 2 2>3 held order\nlink 3 33>2 held 700 of 701\nlink 4 34>3 held 400 of 2000\n",
    );
    t = held(t, &FIXED_BOX, 200, 3, 700, 701);
    t = held(t, &FIXED_BOX, 3000, 3, 700, 701);
    t = paced_alike(t, 3, 700, 701);
    t = held(t, &FIXED_BOX, 1200, 4, 400, 2000);
    t = paced_alike(t, 4, 400, 2000);
    cases::print(rt, "C-12, Box with a pulse of each kind", t)
}

// C-14: Box on the hold-on model, where 33>2 waits for task 1 or for task 2 with what that wakes, then for source 34's
// load, and runs for 300 itself. Its report into a buffer that it just fills, and one that is a byte shorter.
fn hold_box(rt: &HostRuntime) -> io::Result<()> {
    let mut t = calls::quotes_file(cases::hold(), &BOX, 0, 1248);
    t = held(t, &BOX, 1248, 3, 1000, 1001);
    t = calls::doubtful(t, &BOX, 1249, 3, 1000);
    t = held(t, &BOX, 1248, 4, 600, 2000);
    t = reports(
        t,
        &BOX,
        b"hold\ntempo 124.8\nlink 1 2>1 free\nlink 2 2>3 held order\nlink 3 33>2 held 1000 of 1001\nlink 4 34>3 held 600 of 2000\n",
    );
    t = calls::fills(t, &BOX, 114, 0);
    t = calls::fills(t, &BOX, 113, 13);
    cases::print(rt, "C-14, Box", t)
}

// Twin with the spacings 11 and 10.
fn hold_twin(rt: &HostRuntime) -> io::Result<()> {
    let mut t = twin_held(cases::hold(), 11, 3, 10);
    t = twin_held(t, 11, 4, 6);
    t = twin_doubt(t, 10);
    t = twin_quote(t, 11, 0, 3000);
    t = twin_quote(t, 10, 12, 0);
    t = reports(
        t,
        &twin(10),
        b"hold\ntempo none\nlink 1 1>3 held order\nlink 2 2>3 held order\nlink 3 33>1 doubt of 10\nlink 4 33>2 held 6 of 10\n",
    );
    cases::print(rt, "C-14, Twin", t)
}

// The line `hold` before a refusal, and before a tempo without links; the report of the longest file, and a buffer that
// is a byte shorter.
fn hold_pages(rt: &HostRuntime) -> io::Result<()> {
    let mut t = reports(cases::hold(), b"", b"hold\nrefused 8 at 0\n");
    t = reports(
        t,
        b"\x01\x00\x04\x00\x00\x00\x01\x01\x00\x04\x00\x00\x00\x01\x04\x00\x03\x01\x02\x00\x04\x00\x03\x01\x02\x00",
        b"hold\nrefused 4 at 20\n",
    );
    t = reports(t, b"\x01\x00\x04\x00\x00\x00\x01", b"hold\ntempo 300.0\n");
    t = calls::longest(t, 11157, 0);
    t = calls::longest(t, 11156, 13);
    cases::print(rt, "C-14, reports", t)
}

fn main(rt: HostRuntime) -> io::Result<()> {
    tempos(&rt)?;
    pages(&rt)?;
    paper::paper_delays(&rt)?;
    paper::paper_report(&rt)?;
    paper::paper_added(&rt)?;
    paper::paper_loads(&rt)?;
    paper::published(&rt)?;
    marked_box(&rt)?;
    marked_twin(&rt)?;
    marked_orders(&rt)?;
    marked_others(&rt)?;
    quotes(&rt)?;
    swung_spacings(&rt)?;
    swung_box(&rt)?;
    alike(&rt)?;
    hold_box(&rt)?;
    hold_twin(&rt)?;
    hold_pages(&rt)
}
