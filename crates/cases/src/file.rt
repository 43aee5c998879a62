// Figures of a file and of a record: read, judged, and its fields from a reading place.

use crate::{Tally, counted, is_outcome};
use model::Description;

// The description of a file, which is blank where the file is refused.
pub fn described(file: &[u8]) -> Description {
    files::read(file).description
}

// A file is read, number 0, or refused with a number and a place.
pub fn reads(t: Tally, file: &[u8], number: usize, place: usize) -> Tally {
    counted(t, is_outcome(files::read(file).outcome, number, place))
}

// A record is judged as done, number 0, or refused with a number and a place.
pub fn judges(t: Tally, d: Description, number: usize, place: usize) -> Tally {
    counted(t, is_outcome(files::judge(d), number, place))
}

// At an offset of a file the reader finds a field, and its place is then at another.
pub fn takes_field(t: Tally, file: &[u8], at: usize, after: usize) -> Tally {
    let step = fields::reader::next_at(file, at);
    counted(t, matches!(step.found, Ok(Some(_))) && step.at == after)
}
