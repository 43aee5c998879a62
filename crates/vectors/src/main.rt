// Compares the answers of the calls with the shared vectors: the report of each file, and each run of the tick machine.
#![tactic(auto)]

use model::Policy;
use parts::Tally;
use std::{fs, io};
use streams::read_input;

mod parts;
mod record_bytes;
mod reports;
mod run_cases;

ghost use Rattle.std.specs.Prelude.{◌≤◌, length, IfOk};

// The bytes of a data file at the front of a buffer.
fn read_data(rt: &HostRuntime, path: &str, buf: &mut [u8]) -> io::Result<usize>
    ensures { IfOk result (λ n. n ≤ length buf.new) }
{
    let mut file = fs::open(rt, path)?;
    read_input(&mut file, buf)
}

fn print_tally(rt: &HostRuntime, t: Tally, what: &str) -> io::Result<()> {
    println!(rt; "{} of {} {what}", t.agree, t.cases)?;
    if t.first != 0 {
        println!(rt; "the first that does not: {}", t.first)?;
    }
    Ok(())
}

// Compares the cases of a data file.
fn compare_file<F: FnOnce(&[u8]) -> Tally>(
    rt: &HostRuntime,
    path: &str,
    compare: F,
    what: &str,
) -> io::Result<()>
    requires { F.IsAlwaysCallable compare }
{
    let mut data = [0u8; 294912];
    let n = read_data(rt, path, &mut data)?;
    print_tally(rt, compare(&data[..n]), what)
}

// The reports of a data file on a model, and its runs.
fn compare_reports(rt: &HostRuntime, path: &str, p: Policy, what: &str) -> io::Result<()> {
    compare_file(rt, path, |s| reports::compare_all(p, s), what)
}

fn compare_runs(rt: &HostRuntime, path: &str, p: Policy, what: &str) -> io::Result<()> {
    compare_file(rt, path, |s| run_cases::compare_all(p, s), what)
}

fn main(rt: HostRuntime) -> io::Result<()> {
    let plain = Policy::Preemptive;
    let hold = Policy::HoldOn;
    compare_reports(&rt, "reports.bin", plain, "reports agree")?;
    compare_reports(&rt, "swing.bin", plain, "reports with swing agree")?;
    compare_runs(&rt, "latched-runs.bin", plain, "runs agree")?;
    compare_runs(&rt, "knob-runs.bin", plain, "runs from before C-15 agree")?;
    compare_runs(&rt, "steady-runs.bin", plain, "runs at one tempo agree")?;
    compare_reports(
        &rt,
        "hold-reports.bin",
        hold,
        "reports of the hold-on model agree",
    )?;
    compare_runs(
        &rt,
        "latched-hold-runs.bin",
        hold,
        "runs of the hold-on model agree",
    )?;
    compare_runs(
        &rt,
        "hold-runs.bin",
        hold,
        "runs of the hold-on model from before C-15 agree",
    )
}
