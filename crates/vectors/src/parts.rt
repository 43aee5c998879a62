// The parts of the vectors, and the count of the cases that agree.

ghost use Rattle.std.specs.Prelude.{◌≡◌, ◌++◌, ◌<◌, ◌≤◌, drop, length};

use headers::half_at;

// How many cases were run, how many agree, and the number of the first that does not (0 for none).
#[derive(Clone, Copy, Default)]
pub struct Tally {
    pub cases: u64,
    pub agree: u64,
    pub first: u64,
}

// A part of the vectors, its length in two bytes before it, cut off where they end; and what comes behind it.
pub fn part<'a>(s: &'a [u8]) -> (&'a [u8], &'a [u8])
    ensures shorter { (length result.1.now ≤ length s.now) × (0 < length s.now → length result.1.now < length s.now) }
    ensures whole { result.0.now ++ result.1.now ≡ drop 2 s.now }
{
    if s.len() < 2 {
        return (&s[s.len()..], &s[s.len()..]);
    }
    let body = &s[2..];
    body.split_at(usize::from(half_at(s, 0)).min(body.len()))
}

// The tally with one case more.
pub fn counted(t: Tally, agree: bool) -> Tally {
    let cases = t.cases.wrapping_add(1);
    Tally {
        cases,
        agree: t.agree.wrapping_add(u64::from(agree)),
        first: if agree || t.first != 0 {
            t.first
        } else {
            cases
        },
    }
}
