// The figures of a file and of its record: every range at both ends and one beyond, lengths, counts, fields from a
// reading place, records judged, and buffers that are just filled.
#![tactic(auto)]

use cases::example::{BOX, swung};
use cases::{Tally, file, tick};
use model::{Description, Link};
use std::io;

mod calls;

// A longest run is 1 to 10,000,000.
fn runs(rt: &HostRuntime) -> io::Result<()> {
    let mut t = cases::none();
    t = file::reads(t, b"\x01\x00\x04\x00\x00\x00\x00", 6, 0);
    t = file::reads(t, b"\x01\x00\x04\x00\x00\x00\x01", 0, 0);
    t = file::reads(t, b"\x01\x00\x04\x00\x98\x96\x80", 0, 0);
    t = file::reads(t, b"\x01\x00\x04\x00\x98\x96\x81", 6, 0);
    cases::print(rt, "runs", t)
}

// A least spacing is 1 to 1,000,000,000.
fn spacings(rt: &HostRuntime) -> io::Result<()> {
    let mut t = cases::none();
    t = file::reads(
        t,
        b"\x01\x00\x04\x00\x00\x00\x01\x02\x00\x04\x00\x00\x00\x00",
        6,
        7,
    );
    t = file::reads(
        t,
        b"\x01\x00\x04\x00\x00\x00\x01\x02\x00\x04\x00\x00\x00\x01",
        0,
        0,
    );
    t = file::reads(
        t,
        b"\x01\x00\x04\x00\x00\x00\x01\x02\x00\x04\x3b\x9a\xca\x00",
        0,
        0,
    );
    t = file::reads(
        t,
        b"\x01\x00\x04\x00\x00\x00\x01\x02\x00\x04\x3b\x9a\xca\x01",
        6,
        7,
    );
    cases::print(rt, "spacings", t)
}

// Eight tasks that each wake all above them: at runs of 7,812,500 the source's load at task 1 is 128 times that,
// 1,000,000,000.
fn heaviest() -> [u8; 237] {
    *b"\x01\x00\x04\x00\x77\x35\x94\x01\x00\x04\x00\x77\x35\x94\x01\x00\x04\x00\x77\x35\x94\x01\x00\x04\x00\x77\x35\x94\x01\x00\x04\x00\x77\x35\x94\x01\x00\x04\x00\x77\x35\x94\x01\x00\x04\x00\x77\x35\x94\x01\x00\x04\x00\x77\x35\x94\x02\x00\x04\x3b\x9a\xca\x00\x04\x00\x03\x01\x02\x00\x04\x00\x03\x01\x03\x00\x04\x00\x03\x01\x04\x00\x04\x00\x03\x01\x05\x00\x04\x00\x03\x01\x06\x00\x04\x00\x03\x01\x07\x00\x04\x00\x03\x01\x08\x00\x04\x00\x03\x02\x03\x00\x04\x00\x03\x02\x04\x00\x04\x00\x03\x02\x05\x00\x04\x00\x03\x02\x06\x00\x04\x00\x03\x02\x07\x00\x04\x00\x03\x02\x08\x00\x04\x00\x03\x03\x04\x00\x04\x00\x03\x03\x05\x00\x04\x00\x03\x03\x06\x00\x04\x00\x03\x03\x07\x00\x04\x00\x03\x03\x08\x00\x04\x00\x03\x04\x05\x00\x04\x00\x03\x04\x06\x00\x04\x00\x03\x04\x07\x00\x04\x00\x03\x04\x08\x00\x04\x00\x03\x05\x06\x00\x04\x00\x03\x05\x07\x00\x04\x00\x03\x05\x08\x00\x04\x00\x03\x06\x07\x00\x04\x00\x03\x06\x08\x00\x04\x00\x03\x07\x08\x00\x04\x00\x03\x21\x01\x01"
}

// A load is at most 1,000,000,000.
fn weights(rt: &HostRuntime) -> io::Result<()> {
    let mut heavy = heaviest();
    let mut t = file::reads(cases::none(), &heavy, 0, 0);
    heavy[6] = 149;
    t = file::reads(t, &heavy, 10, 0);
    cases::print(rt, "loads", t)
}

// Pulses are 1 to 960.
fn pulses(rt: &HostRuntime) -> io::Result<()> {
    let mut t = cases::none();
    t = file::reads(t, b"\x01\x00\x04\x00\x00\x00\x01\x03\x00\x02\x00\x00", 6, 7);
    t = file::reads(t, b"\x01\x00\x04\x00\x00\x00\x01\x03\x00\x02\x00\x01", 0, 0);
    t = file::reads(t, b"\x01\x00\x04\x00\x00\x00\x01\x03\x00\x02\x03\xc0", 0, 0);
    t = file::reads(t, b"\x01\x00\x04\x00\x00\x00\x01\x03\x00\x02\x03\xc1", 6, 7);
    cases::print(rt, "pulses", t)
}

// A file with these pulses and this swing is read, number 0, or refused with a number and a place.
fn swing(t: Tally, pulses: u16, swing: u8, number: usize, place: usize) -> Tally {
    file::reads(t, &swung(pulses, swing), number, place)
}

// A swing is 51 to 75, also where the pulses are good, and straight time has no third byte.
fn swings(rt: &HostRuntime) -> io::Result<()> {
    let mut t = cases::none();
    t = swing(t, 480, 0, 6, 7);
    t = swing(t, 480, 49, 6, 7);
    t = swing(t, 480, 50, 6, 7);
    t = swing(t, 480, 51, 0, 0);
    t = swing(t, 480, 75, 0, 0);
    t = swing(t, 480, 76, 6, 7);
    t = swing(t, 480, 255, 6, 7);
    t = swing(t, 0, 66, 6, 7);
    t = swing(t, 1, 66, 0, 0);
    t = swing(t, 960, 66, 0, 0);
    t = swing(t, 961, 66, 6, 7);
    cases::print(rt, "swings", t)
}

// Of a paced source the lengths 2 and 3 are right, any other is 3, told before a body that passes the end.
fn lengths(rt: &HostRuntime) -> io::Result<()> {
    let mut t = cases::none();
    t = file::reads(t, b"\x01\x00\x04\x00\x00\x00\x01\x03\x00\x00", 3, 7);
    t = file::reads(t, b"\x01\x00\x04\x00\x00\x00\x01\x03\x00\x01\x18", 3, 7);
    t = file::reads(t, b"\x01\x00\x04\x00\x00\x00\x01\x03\x00\x02\x00\x18", 0, 0);
    t = file::reads(t, b"\x01\x00\x04\x00\x00\x00\x01\x03\x00\x02\x00", 1, 7);
    t = file::reads(
        t,
        b"\x01\x00\x04\x00\x00\x00\x01\x03\x00\x03\x00\x18\x42",
        0,
        0,
    );
    t = file::reads(t, b"\x01\x00\x04\x00\x00\x00\x01\x03\x00\x03\x00\x18", 1, 7);
    t = file::reads(
        t,
        b"\x01\x00\x04\x00\x00\x00\x01\x03\x00\x04\x00\x18\x42\x42",
        3,
        7,
    );
    t = file::reads(t, b"\x01\x00\x04\x00\x00\x00\x01\x03\x00\x04\x00", 3, 7);
    t = file::reads(
        t,
        b"\x01\x00\x04\x00\x00\x00\x01\x03\x01\x03\x00\x18\x42",
        3,
        7,
    );
    cases::print(rt, "lengths of a paced source", t)
}

// A critical number is 0 or 1.
fn criticals(rt: &HostRuntime) -> io::Result<()> {
    let mut t = cases::none();
    t = file::reads(
        t,
        b"\x01\x00\x04\x00\x00\x00\x01\x01\x00\x04\x00\x00\x00\x01\x04\x00\x03\x01\x02\x00",
        0,
        0,
    );
    t = file::reads(
        t,
        b"\x01\x00\x04\x00\x00\x00\x01\x01\x00\x04\x00\x00\x00\x01\x04\x00\x03\x01\x02\x01",
        0,
        0,
    );
    t = file::reads(
        t,
        b"\x01\x00\x04\x00\x00\x00\x01\x01\x00\x04\x00\x00\x00\x01\x04\x00\x03\x01\x02\x02",
        6,
        14,
    );
    cases::print(rt, "critical numbers", t)
}

// 1 to 32 tasks, 0 to 16 sources, 0 to 256 links; the longest file has 1,872 bytes.
fn counts(rt: &HostRuntime) -> io::Result<()> {
    let mut t = cases::none();
    t = calls::crowd(t, 0, 0, 0, 8, 0);
    t = calls::crowd(t, 32, 0, 224, 0, 0);
    t = calls::crowd(t, 33, 0, 231, 5, 224);
    t = calls::crowd(t, 1, 0, 7, 0, 0);
    t = calls::crowd(t, 1, 16, 119, 0, 0);
    t = calls::crowd(t, 1, 17, 126, 5, 119);
    t = calls::crowd(t, 32, 16, 336, 0, 0);
    t = calls::crowd(t, 32, 16, 1872, 0, 0);
    t = calls::crowd(t, 32, 16, 1878, 5, 1872);
    cases::print(rt, "counts", t)
}

// Box field by field: a task, a paced source, a link, and the end; then a strange tag.
fn box_fields(t: Tally) -> Tally {
    let mut t = file::takes_field(t, &BOX, 0, 7);
    t = file::takes_field(t, &BOX, 21, 26);
    t = file::takes_field(t, &BOX, 51, 57);
    t = calls::takes_end(t, &BOX, 57);
    t = calls::takes_end(t, &BOX, 58);
    calls::takes_refusal(t, &BOX, 1, 2)
}

// From a reading place Box field by field, then a wrong length and a cut body.
fn taking(rt: &HostRuntime) -> io::Result<()> {
    let mut t = box_fields(cases::none());
    t = calls::takes_refusal(t, b"\x01\x00\x04\x00\x00\x00\x01\x02\x00\x02\x00\x01", 7, 3);
    t = calls::takes_refusal(t, b"\x01\x00\x04\x00\x00\x00\x01\x02\x00\x04\x00\x01", 7, 1);
    t = calls::takes_refusal(t, b"\x01\x00", 0, 1);
    cases::print(rt, "fields from a reading place", t)
}

fn box_record() -> Description {
    file::described(&BOX)
}

// Box with another first link, or another second one.
fn first_link(from: u8, to: u8) -> Description {
    let mut d = box_record();
    d.links[0] = Link {
        from,
        to,
        critical: 0,
    };
    d
}

fn second_link(from: u8, to: u8) -> Description {
    let mut d = box_record();
    d.links[1] = Link {
        from,
        to,
        critical: 0,
    };
    d
}

// Box with a count of links, or with a run of its second task.
fn counting(links: usize) -> Description {
    let mut d = box_record();
    d.link_count = links;
    d
}

fn second_run(run: u32) -> Description {
    let mut d = box_record();
    d.runs[1] = run;
    d
}

// The heaviest file's record with a run of its first task.
fn heavy(run: u32) -> Description {
    let mut d = file::described(&heaviest());
    d.runs[0] = run;
    d
}

// A record is judged as its file would be: 8 for a blank one, 9 and 10 where its links or runs are changed, 5 at 0 for
// a count above its limit, and 6, 7 and 4 at the changed field.
fn judging(rt: &HostRuntime) -> io::Result<()> {
    let mut t = file::judges(cases::none(), box_record(), 0, 0);
    t = file::judges(t, file::described(b""), 8, 0);
    t = file::judges(t, first_link(2, 2), 9, 0);
    t = file::judges(t, heavy(7812500), 0, 0);
    t = file::judges(t, heavy(7812501), 10, 0);
    t = file::judges(t, counting(257), 5, 0);
    t = file::judges(t, second_run(0), 6, 7);
    t = file::judges(t, first_link(2, 4), 7, 33);
    t = file::judges(t, second_link(2, 1), 4, 39);
    cases::print(rt, "records judged", t)
}

// Box into a buffer that it just fills, and one that is a byte shorter, which for a blank record is refused for that.
fn files_written(t: Tally) -> Tally {
    let mut whole = [0u8; 57];
    let mut short = [0u8; 56];
    let mut t = calls::writes(t, box_record(), &mut whole, 0, 57);
    t = calls::writes(t, box_record(), &mut short, 13, 0);
    calls::writes(t, file::described(b""), &mut short, 8, 0)
}

// The outcomes of two calls into a buffer.
fn outcomes_written(t: Tally, outcomes: &mut [u8], number: usize) -> Tally {
    tick::runs(
        t,
        box_record(),
        b"\x00\x00\x00\xc8\x00\x00\x00\x00\x00\xc8\x00\x00",
        outcomes,
        number,
    )
}

// A file into a buffer that it just fills, and one that is a byte shorter; outcomes of two calls likewise.
fn buffers(rt: &HostRuntime) -> io::Result<()> {
    let mut two = [0u8; 2];
    let mut one = [0u8; 1];
    let mut t = files_written(cases::none());
    t = outcomes_written(t, &mut two, 0);
    t = outcomes_written(t, &mut one, 13);
    cases::print(rt, "buffers just filled", t)
}

fn main(rt: HostRuntime) -> io::Result<()> {
    runs(&rt)?;
    spacings(&rt)?;
    weights(&rt)?;
    pulses(&rt)?;
    swings(&rt)?;
    lengths(&rt)?;
    criticals(&rt)?;
    counts(&rt)?;
    taking(&rt)?;
    judging(&rt)?;
    buffers(&rt)
}
