// All fields of a description file from a place on, and the fields of a record: the refusals 1 to 7 with their places.
#![tactic(auto)]

ghost use Rattle.std.specs.Prelude.{◌≡◌, ◌||◌, ltb};
ghost use Rattle.model.specs.Field.{take_field};
ghost use Rattle.model.specs.File.{parse_at};
ghost use Rattle.reading.specs.Steps.{checked_taken, found_of, as_result, record_checks};

use checks::{advanced, check_field};
use fields::reader::next_at;
use fields::{field_length, field_of};
use model::{Description, Field, Progress, Refusal, Rejection, SourceSlot};
use refusals::blank;

// The field that a reader at a place gives, if it may stand there, and the place after it; or nothing at the end.
fn checked_at(s: &[u8], at: usize, p: Progress) -> Result<Option<(Field, usize)>, Rejection>
    ensures { result ≡ found_of (checked_taken p (take_field s.now at)) at }
{
    let step = next_at(s, at);
    let Some(field) = step.found? else {
        return Ok(None);
    };
    if let Err(refusal) = check_field(p, field) {
        return Err(refusal.at(at));
    }
    Ok(Some((field, step.at)))
}

// All fields from a place on: one that does not come out whole, or may not stand where it does, ends the reading.
pub fn parse(s: &[u8], start: usize) -> Result<Description, Rejection>
    ensures { result ≡ as_result (parse_at s.now start) }
{
    let mut d = blank();
    let mut p = Progress::default();
    let mut at = start;
    // No iterator: what has been read decides whether the next field may stand there.
    loop {
        let Some((field, next)) = checked_at(s, at, p)? else {
            return Ok(d);
        };
        match field {
            Field::OfTask(run) => {
                d.runs[d.task_count] = run;
                d.task_count += 1;
            }
            Field::OfSource(source) => {
                d.sources[d.source_count] = SourceSlot { source };
                d.source_count += 1;
            }
            Field::OfLink(link) => {
                d.links[d.link_count] = link;
                d.link_count += 1;
            }
        }
        p = advanced(p, field);
        at = next;
    }
}

// Whether a count is above its limit.
fn over_full(tasks: usize, sources: usize, links: usize) -> bool
    ensures { result ≡ (ltb 32 tasks || (ltb 16 sources || ltb 256 links)) }
{
    32 < tasks || (16 < sources || 256 < links)
}

// The counts and fields of a record, judged as those of its file, which is not built.
pub fn check_record(d: Description) -> Result<(), Rejection>
    ensures { result ≡ record_checks d }
{
    if over_full(d.task_count, d.source_count, d.link_count) {
        return Err(Refusal::TooMany.at(0));
    }
    let mut p = Progress::default();
    let mut at: usize = 0;
    for k in 0..d.task_count + d.source_count + d.link_count {
        let field = field_of(d, k);
        if let Err(why) = check_field(p, field) {
            return Err(why.at(at));
        }
        p = advanced(p, field);
        at += field_length(field);
    }
    Ok(())
}
