// A record's file into a lent buffer: the bytes of each field, and the refusal 13.
#![tactic(auto)]

ghost use Rattle.std.specs.Prelude.{◌≡◌, ◌+◌, ◌≤◌, ◌∷◌, [], ◌++◌, length};
ghost use Rattle.std.proofs.lemmas.List.Edits.{sets};
ghost use Rattle.model.specs.Header.{bytes_of};
ghost use Rattle.model.specs.Field.{field_bytes};
ghost use Rattle.model.specs.File.{file_of, fill_with, filled_by};

use fields::{field_length, field_of};
use model::{Description, Field, Link, Refusal, Rejection, Source};

// A field whose body is a number of four bytes: a task or a fixed source.
fn put_wide(out: &mut [u8], at: usize, tag: u8, x: u32)
    requires { at + 7 ≤ length out.old }
    ensures { out.new ≡ sets out.old at (tag ∷ 0 ∷ 4 ∷ bytes_of 4 x) }
{
    let [a, b, c, d] = x.to_be_bytes();
    out[at..at + 7].copy_from_slice(&[tag, 0, 4, a, b, c, d]);
}

// A paced source of the given length, to its pulses.
fn put_paced(out: &mut [u8], at: usize, size: u8, pulses: u16)
    requires { at + 5 ≤ length out.old }
    ensures { out.new ≡ sets out.old at (3 ∷ 0 ∷ size ∷ bytes_of 2 pulses) }
{
    let [a, b] = pulses.to_be_bytes();
    out[at..at + 5].copy_from_slice(&[3, 0, size, a, b]);
}

// A paced source with a swing.
fn put_swung(out: &mut [u8], at: usize, pulses: u16, swing: u8)
    requires { at + 6 ≤ length out.old }
    ensures { out.new ≡ sets out.old at (3 ∷ 0 ∷ 3 ∷ bytes_of 2 pulses ++ (swing ∷ [])) }
{
    put_paced(out, at, 3, pulses);
    out[at + 5] = swing;
}

fn put_link(out: &mut [u8], at: usize, l: Link)
    requires { at + 6 ≤ length out.old }
    ensures { out.new ≡ sets out.old at (4 ∷ 0 ∷ 3 ∷ l.from ∷ l.to ∷ l.critical ∷ []) }
{
    out[at..at + 6].copy_from_slice(&[4, 0, 3, l.from, l.to, l.critical]);
}

// The bytes of a field, from a place on.
fn put_field(out: &mut [u8], at: usize, f: Field)
    requires { at + length (field_bytes f) ≤ length out.old }
    ensures { out.new ≡ sets out.old at (field_bytes f) }
{
    match f {
        Field::OfTask(e) => put_wide(out, at, 1, e),
        Field::OfSource(Source::Fixed(m)) => put_wide(out, at, 2, m),
        Field::OfSource(Source::Paced(n)) => put_paced(out, at, 2, n),
        Field::OfSource(Source::Swung(n, swing)) => put_swung(out, at, n, swing),
        Field::OfLink(l) => put_link(out, at, l),
    }
}

// The number of bytes of a record's file.
fn file_length(d: Description) -> usize
    requires { (d.task_count ≤ 32) × (d.source_count ≤ 16) × (d.link_count ≤ 256) }
    ensures { result ≡ length (file_of d) }
{
    let mut n: usize = 0;
    for k in 0..d.task_count + d.source_count + d.link_count {
        n += field_length(field_of(d, k));
    }
    n
}

// A record's file into a lent buffer: all of it, or not one byte where the buffer is shorter.
pub fn put_file(d: Description, out: &mut [u8]) -> Result<usize, Rejection>
    requires { (d.task_count ≤ 32) × (d.source_count ≤ 16) × (d.link_count ≤ 256) }
    ensures { (result ≡ fill_with (file_of d) out.old) × (out.new ≡ filled_by (file_of d) out.old) }
{
    let n = file_length(d);
    if out.len() < n {
        return Err(Refusal::ShortPage.at(0));
    }
    let mut at: usize = 0;
    for k in 0..d.task_count + d.source_count + d.link_count {
        let f = field_of(d, k);
        put_field(out, at, f);
        at += field_length(f);
    }
    Ok(n)
}
