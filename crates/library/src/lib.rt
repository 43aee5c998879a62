// The calls for programs in C and Rust: lent bytes and numbers in, one number out. A number below 0 is a refusal. There is a call of each kind for the
// preemptive model and one for the hold-on model; the MIDI clock is the same on both.
#![tactic(auto)]

ghost use Rattle.std.specs.Prelude.{◌≡◌, ◌≤◌, pos, neg_ℤ};
ghost use Rattle.model.specs.declared.Policy.TheVariants.{Preemptive, HoldOn};
ghost use Rattle.model.specs.Refusals.{refusal};
ghost use Rattle.library.specs.Replies.{reply, ReportReplied, QuoteReplied, RunReplied, ClockReplied};

use clock_table::clock_spacing;
use layout::put_record;
use model::{Policy, Refusal, Rejection};
use refusals::number_of;
use spacings::on_knob;
use ticks::run_accepted;

// x below 0.
fn negative(x: u32) -> i64
    ensures { result ≡ neg_ℤ (pos x) }
{
    -i64::from(x)
}

// A refusal's number and place in one number, below 0.
fn refusal_code(rejection: Rejection) -> i64
    requires { rejection.place ≤ 2128 }
    ensures { result ≡ reply (refusal rejection.why rejection.place) }
{
    let number = number_of(rejection.why);
    negative((10000 * number + rejection.place) as u32)
}

// The report of a file into a buffer, on one model: its length, or the refusal 13 and no byte changed.
fn report_file(p: Policy, file: &[u8], out: &mut [u8]) -> i64
    ensures { ReportReplied p file.now out.old out.new result }
{
    match report::report(p, file, out) {
        Ok(n) => i64::from(n as u32),
        Err(rejection) => refusal_code(rejection),
    }
}

#[unsafe(no_mangle)]
pub extern "C" fn bench_report(file: &[u8], out: &mut [u8]) -> i64
    ensures { ReportReplied Preemptive file.now out.old out.new result }
{
    report_file(Policy::Preemptive, file, out)
}

#[unsafe(no_mangle)]
pub extern "C" fn bench_hold_report(file: &[u8], out: &mut [u8]) -> i64
    ensures { ReportReplied HoldOn file.now out.old out.new result }
{
    report_file(Policy::HoldOn, file, out)
}

// The highest tempo of a file in tenths, on one model, or its refusal.
fn quote_file(p: Policy, file: &[u8]) -> i64
    ensures { QuoteReplied p file.now result }
{
    match quotes::quote_file(p, file) {
        Ok(t) => i64::from(t),
        Err(rejection) => refusal_code(rejection),
    }
}

#[unsafe(no_mangle)]
pub extern "C" fn bench_quote(file: &[u8]) -> i64
    ensures { QuoteReplied Preemptive file.now result }
{
    quote_file(Policy::Preemptive, file)
}

#[unsafe(no_mangle)]
pub extern "C" fn bench_hold_quote(file: &[u8]) -> i64
    ensures { QuoteReplied HoldOn file.now result }
{
    quote_file(Policy::HoldOn, file)
}

// Many tick calls from the idle start, on one model: each call's outcome and the last record into the buffers.
fn run_file(p: Policy, file: &[u8], calls: &[u8], outcomes: &mut [u8], state: &mut [u8]) -> i64
    ensures { RunReplied p file.now calls.now outcomes.old state.old outcomes.new state.new result }
{
    let read = files::read(file);
    if let Err(rejection) = read.outcome {
        return refusal_code(rejection);
    }
    if state.len() < layout::RECORD {
        return refusal_code(Refusal::ShortPage.at(0));
    }
    if outcomes.len() < calls.len() / 6 {
        return refusal_code(Refusal::ShortPage.at(0));
    }
    let ran = run_accepted(p, read.description, calls, outcomes);
    put_record(ran.machine, state);
    0
}

#[unsafe(no_mangle)]
pub extern "C" fn bench_run(file: &[u8], calls: &[u8], outcomes: &mut [u8], state: &mut [u8]) -> i64
    ensures { RunReplied Preemptive file.now calls.now outcomes.old state.old outcomes.new state.new result }
{
    run_file(Policy::Preemptive, file, calls, outcomes, state)
}

#[unsafe(no_mangle)]
pub extern "C" fn bench_hold_run(
    file: &[u8],
    calls: &[u8],
    outcomes: &mut [u8],
    state: &mut [u8],
) -> i64
    ensures { RunReplied HoldOn file.now calls.now outcomes.old state.old outcomes.new state.new result }
{
    run_file(Policy::HoldOn, file, calls, outcomes, state)
}

// The spacing of the MIDI clock at a tempo in tenths, from its table, or 11.
#[unsafe(no_mangle)]
pub extern "C" fn bench_clock(tempo: u32) -> i64
    ensures { ClockReplied tempo result }
{
    if on_knob(tempo) {
        return i64::from(clock_spacing(tempo));
    }
    refusal_code(Refusal::OffKnob.at(0))
}
