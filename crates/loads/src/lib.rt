// Loads and cycles of a description whose fields have been checked: the checks 8, 9 and 10, and the load sheet.
#![tactic(auto)]

use model::{Description, LoadSheet, Refusal, Rejection, Row};
use refusals::refused_sheet;

pub mod levels;
mod rows;

ghost use Rattle.std.specs.Prelude.{◌≡◌, ◌≤◌, length};
ghost use Rattle.theory.proofs.WellFormed.{Fielded};
ghost use Rattle.works.specs.Works.{Scaled};
ghost use Rattle.loads.specs.Tables.{WorkedOf, RowsAre, checked_loads};

// Of a description that passes the last checks: for each node the tasks it brings in and for each task its work, all that loads are sums of.
#[derive(Clone, Copy)]
pub struct Worked {
    pub brings: [u64; 48],
    pub works: [u64; 32],
}

// The same, lent, with the number of tasks: each load is a sum of the works of tasks that a node brings in.
#[derive(Clone, Copy)]
pub struct Summands<'a> {
    pub brings: &'a [u64; 48],
    pub works: &'a [u64; 32],
    pub count: usize,
    pub ghost few: { count ≤ 32 },
    pub ghost nodes_all: { length brings.now ≡ 48 },
    pub ghost tasks_all: { length works.now ≡ 32 },
    pub ghost scaled: { Scaled works.now },
}

// After the last field: no task, a loop, too heavy; else the work is done.
pub fn work_out(d: Description) -> Result<Worked, Rejection>
    requires { Fielded d }
    ensures { WorkedOf d result }
{
    let n = d.task_count;
    if n == 0 {
        return Err(Refusal::NoTask.at(0));
    }
    let succ = paths::successors(d);
    let rows = paths::closed(succ, n);
    if paths::brings_itself(&rows, n) {
        return Err(Refusal::Loop.at(0));
    }
    let mut brings = [0u64; 48];
    let wired = works::Wired {
        succ: &succ,
        runs: &d.runs,
        count: d.task_count,
    };
    let works = works::works_of(&wired, &mut brings);
    let summands = Summands {
        brings: &brings,
        works: &works,
        count: n,
    };
    if rows::heavy(&summands) {
        return Err(Refusal::TooHeavy.at(0));
    }
    Ok(Worked { brings, works })
}

// A sheet as rows of the public answer.
pub fn as_rows(t: [[u64; 32]; 48]) -> [Row; 48]
    ensures { RowsAre t result }
{
    let mut rows = [Row { loads: [0u64; 32] }; 48];
    for (i, loads) in t.iter().enumerate() {
        rows[i] = Row { loads: *loads };
    }
    rows
}

// The same with the load sheet: a row for each node and a column for each task.
pub fn last_checks(d: Description) -> LoadSheet
    requires { Fielded d }
    ensures { result ≡ checked_loads d }
{
    match work_out(d) {
        Ok(worked) => {
            let summands = Summands {
                brings: &worked.brings,
                works: &worked.works,
                count: d.task_count,
            };
            let t = rows::load_rows(&summands);
            LoadSheet {
                outcome: Ok(()),
                rows: as_rows(t),
            }
        }
        Err(rejection) => refused_sheet(rejection),
    }
}
