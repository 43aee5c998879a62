// The calls that this program alone compares: fields from a reading place, a record written, and files that are too
// long to write out.

ghost use Rattle.std.specs.Prelude.{◌≤◌};

use cases::file::reads;
use cases::{Tally, build, counted, tells};
use model::Description;
use refusals::number_of;

// At an offset of a file the reader is refused with a number and a place, and stays.
pub fn takes_refusal(t: Tally, file: &[u8], at: usize, number: usize) -> Tally {
    let step = fields::reader::next_at(file, at);
    let Err(rejection) = step.found else {
        return counted(t, false);
    };
    let n = number_of(rejection.why);
    counted(t, (n == number) & (rejection.place == at) & (step.at == at))
}

// At an offset of a file the reader finds the end, and stays.
pub fn takes_end(t: Tally, file: &[u8], at: usize) -> Tally {
    let step = fields::reader::next_at(file, at);
    counted(t, matches!(step.found, Ok(None)) && step.at == at)
}

// A record is written into a buffer: as many bytes, number 0, or refused with a number and a place.
pub fn writes(t: Tally, d: Description, page: &mut [u8], number: usize, value: usize) -> Tally {
    counted(t, tells(files::write(d, page), number, value))
}

// The first n bytes of a page as a file.
fn reads_front(t: Tally, page: &[u8], n: usize, number: usize, place: usize) -> Tally {
    if page.len() < n {
        return counted(t, false);
    }
    reads(t, &page[..n], number, place)
}

// A file of tasks, sources and links that has n bytes in all.
pub fn crowd(t: Tally, tasks: usize, sources: usize, n: usize, number: usize, place: usize) -> Tally
    requires { (tasks ≤ 33) × (sources ≤ 17) }
{
    let mut page = [0u8; 2048];
    build::fill(&mut page, tasks, sources);
    reads_front(t, &page, n, number, place)
}
