// Descriptions: a file or a record judged by all of the refusals 1 to 10, with its load sheet, and a record written.
#![tactic(auto)]

ghost use Rattle.std.specs.Prelude.{◌≡◌};
ghost use Rattle.model.specs.File.{read_file, judge, load_sheet, written, page_after};
ghost use Rattle.model.specs.File.{read_from};
ghost use Rattle.files.specs.Answers.{JudgedOf, RecordAs, ReadAs};

use loads::Worked;
use model::{Description, LoadSheet, Reading, Rejection};
use reader::Reader;
use refusals::{refused_reading, refused_sheet};

pub mod reader;

// A description that is accepted, with what its loads are sums of.
#[derive(Clone, Copy)]
pub struct Judged {
    pub description: Description,
    pub worked: Worked,
}

// The load sheet of a record, or what its file would be refused for.
pub fn load_sheet(d: Description) -> LoadSheet
    ensures { result ≡ load_sheet d }
{
    if let Err(rejection) = reading::check_record(d) {
        return refused_sheet(rejection);
    }
    loads::last_checks(d)
}

// A record judged as its file would be, with what its loads are sums of if it passes.
fn work_out(d: Description) -> Result<Worked, Rejection>
    ensures { JudgedOf d result }
{
    reading::check_record(d)?;
    loads::work_out(d)
}

// A record judged as its file would be.
pub fn judge(d: Description) -> Result<(), Rejection>
    ensures { result ≡ judge d }
{
    work_out(d)?;
    Ok(())
}

// The same with what comes of it beside the record.
pub fn examine_record(d: Description) -> Result<Judged, Rejection>
    ensures { RecordAs d result }
{
    let worked = work_out(d)?;
    Ok(Judged {
        description: d,
        worked,
    })
}

// The file that begins at a place of the bytes, judged.
fn examine_at(s: &[u8], at: usize) -> Result<Judged, Rejection>
    ensures { ReadAs (read_from s.now at) result }
{
    let d = reading::parse(s, at)?;
    let worked = loads::work_out(d)?;
    Ok(Judged {
        description: d,
        worked,
    })
}

// A file judged, with its description and what its loads are sums of if it is accepted.
pub fn examine(file: &[u8]) -> Result<Judged, Rejection>
    ensures { ReadAs (read_file file.now) result }
{
    examine_at(file, 0)
}

// The description of the file that begins at a place of the bytes, or what that file is refused for.
fn read_at(s: &[u8], at: usize) -> Reading
    ensures { result ≡ read_from s.now at }
{
    match examine_at(s, at) {
        Ok(judged) => Reading {
            outcome: Ok(()),
            description: judged.description,
        },
        Err(rejection) => refused_reading(rejection),
    }
}

// The description of a file, or what the file is refused for: read from the start of its bytes.
pub fn read(s: &[u8]) -> Reading
    ensures { result ≡ read_file s.now }
{
    reader::read_from(Reader::new(s))
}

// A record's file into a lent buffer, or what the record is refused for; a refusal changes no byte.
pub fn write(d: Description, out: &mut [u8]) -> Result<usize, Rejection>
    ensures { (result ≡ written d out.old) × (out.new ≡ page_after d out.old) }
{
    judge(d)?;
    writing::put_file(d, out)
}
