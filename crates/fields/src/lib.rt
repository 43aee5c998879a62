// One field of a description file: the field at a reading place, the field of a record, and the number of its bytes.
#![tactic(auto)]

ghost use Rattle.std.specs.Prelude.{◌≡◌, true, ◌+◌, ◌≤◌, ◌<◌, length};
ghost use Rattle.model.specs.Header.{is_tag, length_fits};
ghost use Rattle.model.specs.Field.{field_tags, paced_in, field_in, field_of, field_bytes};

use headers::{half_at, word_at};
use model::{Description, Field, Header, Link, Source};

pub mod reader;

// The least and the greatest length of each tag's bodies: none of tag 0, then 4 of a task, 4 of a fixed source, 2 or 3 of a paced one, 3 of a link.
const TAGS: [u16; 10] = [0, 0, 4, 4, 4, 4, 2, 3, 3, 3];

// A paced source whose body has this header.
fn paced_in(s: &[u8], header: Header) -> Source
    requires { (length_fits field_tags 3 header.size ≡ true) × (header.at + header.size ≤ length s.now) }
    ensures { result ≡ paced_in s.now header.at header.size }
{
    let pulses = half_at(s, header.at);
    if header.size == 2 {
        return Source::Paced(pulses);
    }
    Source::Swung(pulses, s[header.at + 2])
}

// The field whose body has this header.
fn field_in(s: &[u8], header: Header) -> Field
    requires { (is_tag field_tags header.tag ≡ true) × (length_fits field_tags header.tag header.size ≡ true) × (header.at + header.size ≤ length s.now) }
    ensures { result ≡ field_in s.now header.tag header.at header.size }
{
    let at = header.at;
    match header.tag {
        1 => Field::OfTask(word_at(s, at)),
        2 => Field::OfSource(Source::Fixed(word_at(s, at))),
        3 => Field::OfSource(paced_in(s, header)),
        _ => Field::OfLink(Link {
            from: s[at],
            to: s[at + 1],
            critical: s[at + 2],
        }),
    }
}

// Field k of a record's file.
pub fn field_of(d: Description, k: usize) -> Field
    requires { (d.task_count ≤ 32) × (d.source_count ≤ 16) × (d.link_count ≤ 256) × (k < d.task_count + d.source_count + d.link_count) }
    ensures { result ≡ field_of d k }
{
    if k < d.task_count {
        return Field::OfTask(d.runs[k]);
    }
    let i = k - d.task_count;
    if i < d.source_count {
        return Field::OfSource(d.sources[i].source);
    }
    Field::OfLink(d.links[i - d.source_count])
}

// The number of bytes of a field.
pub fn field_length(f: Field) -> usize
    ensures { result ≡ length (field_bytes f) }
{
    match f {
        Field::OfTask(_) => 7,
        Field::OfSource(Source::Fixed(_)) => 7,
        Field::OfSource(Source::Paced(_)) => 5,
        Field::OfSource(Source::Swung(_, _)) => 6,
        Field::OfLink(_) => 6,
    }
}
