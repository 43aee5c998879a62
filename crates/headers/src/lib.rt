// The header of a field: numbers in bytes, and what stands at a reading place by a table of tags.
#![tactic(auto)]

ghost use Rattle.std.specs.Prelude.{◌≡◌, ◌+◌, ◌*◌, ◌≤◌, length, get_or};
ghost use Rattle.model.specs.Header.{number_in, header_at};

use model::{Header, Refusal};

// The number in two bytes, high byte first.
pub fn half_at(s: &[u8], at: usize) -> u16
    requires { at + 2 ≤ length s.now }
    ensures { result ≡ number_in s.now at 2 }
{
    u16::from_be_bytes([s[at], s[at + 1]])
}

// The number in four bytes, high byte first.
pub fn word_at(s: &[u8], at: usize) -> u32
    requires { at + 4 ≤ length s.now }
    ensures { result ≡ number_in s.now at 4 }
{
    u32::from_be_bytes([s[at], s[at + 1], s[at + 2], s[at + 3]])
}

// The entry of a table at a place, 0 past its end.
fn entry_at(tags: &[u16], k: usize) -> u16
    ensures { result ≡ get_or tags.now k 0 }
{
    tags.get(k).copied().unwrap_or(0)
}

// The least and the greatest length of a tag's bodies by a table, 0 for no such tag.
fn least_length(tags: &[u16], tag: u8) -> u16
    ensures { result ≡ get_or tags.now (2 * tag) 0 }
{
    entry_at(tags, 2 * usize::from(tag))
}

fn most_length(tags: &[u16], tag: u8) -> u16
    ensures { result ≡ get_or tags.now (2 * tag + 1) 0 }
{
    entry_at(tags, 2 * usize::from(tag) + 1)
}

// The header at a reading place, none at the end: whole header, tag, length, whole body.
pub fn header_at(tags: &[u16], s: &[u8], at: usize) -> Result<Option<Header>, Refusal>
    ensures { result ≡ header_at tags.now s.now at }
{
    if s.len() <= at {
        return Ok(None);
    }
    let left = s.len() - at;
    if left < 3 {
        return Err(Refusal::CutShort);
    }
    let tag = s[at];
    let most = most_length(tags, tag);
    if most == 0 {
        return Err(Refusal::StrangeTag);
    }
    let size = half_at(s, at + 1);
    if size < least_length(tags, tag) {
        return Err(Refusal::WrongLength);
    }
    if most < size {
        return Err(Refusal::WrongLength);
    }
    if left - 3 < usize::from(size) {
        return Err(Refusal::CutShort);
    }
    Ok(Some(Header {
        tag,
        at: at + 3,
        size,
    }))
}
