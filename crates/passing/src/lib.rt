// Tick calls as bytes: a call's head, the code of its end, and the calls in which nothing happens, passed together.
#![tactic(auto)]

ghost use Rattle.std.specs.Prelude.{◌≡◌, ◌&&◌, cond, ◌+◌, ◌-◌, ◌*◌, ◌/◌, ◌%◌, ◌≤◌, ◌<◌, ◌^◌, min, length, leb, eqb};
ghost use Rattle.model.specs.Header.{number_in};
ghost use Rattle.model.specs.Refusals.{of_outcome};
ghost use Rattle.passing.specs.Passing.{Head, Skips, later_by};

use headers::half_at;
use model::Rejection;
use refusals::number_of;
use words::Words;

// A call's end as a byte: the refusal's number, or 0.
pub fn code(end: Result<(), Rejection>) -> u8
    ensures { result ≡ (of_outcome end).number }
{
    match end {
        Ok(()) => 0,
        Err(rejection) => number_of(rejection.why) as u8,
    }
}

// A call's mask and tempo as one number of four bytes: where nothing comes, it is the tempo.
fn head_at(calls: &[u8], at: usize) -> u32
    requires { at + 4 ≤ length calls.now }
    ensures { Head calls.now at result }
{
    let mask = half_at(calls, at);
    let tempo = half_at(calls, at + 2);
    u32::from(mask) * 65536 + u32::from(tempo)
}

// The same of call i of n. What it is behind the last does not matter.
pub fn peek(calls: &[u8], i: usize, n: usize) -> u32
    requires { 6 * n ≤ length calls.now }
    ensures { i < n → Head calls.now (6 * i) result }
{
    if i < n { head_at(calls, 6 * i) } else { 0 }
}

// The mask as a word.
pub fn mask_in(head: u32) -> u64
    ensures { (result ≡ head / 65536) × (result < 2 ^ 16) }
{
    u64::from(head / 65536)
}

// And the tempo.
pub fn tempo_in(head: u32) -> u32
    ensures { result ≡ head % 65536 }
{
    head % 65536
}

// Whether nothing comes in a call, and its tempo is one of the knob up to the fastest given.
fn quiet_at(calls: &[u8], at: usize, peak: u32) -> bool
    requires { (at + 4 ≤ length calls.now) × (200 ≤ peak) × (peak ≤ 3000) }
    ensures { result ≡ (eqb (number_in calls.now at 2) 0 && (leb (number_in calls.now (at + 2) 2) peak && leb 200 (number_in calls.now (at + 2) 2))) }
{
    // Three tests one after the other, of which the first is met most often: as one condition all are made at each call.
    let head = head_at(calls, at);
    if head == peak {
        return true;
    }
    if peak < head {
        return false;
    }
    200 <= head
}

// Passes the calls from a place up to another in which nothing comes and no faster tempo is given, and of a run that has begun and goes on those in which
// nothing ends: each is a tick that only counts, or one of the run, and its code is 0. The place of the first other one.
#[inline(always)]
pub fn skip(
    runs: bool,
    calls: &[u8],
    from: usize,
    to: usize,
    peak: u32,
    outcomes: &mut [u8],
) -> usize
    requires { (from ≤ to) × (6 * to ≤ length calls.now) × (to ≤ length outcomes.old) × (200 ≤ peak) × (peak ≤ 3000) }
    ensures { Skips runs calls.now from to peak outcomes.old result outcomes.new }
{
    // By hand: over a range the compiler counts three places in this loop and not two, and a call that is passed takes a quarter longer.
    let mut k = from;
    while k < to {
        if !quiet_at(calls, 6 * k, peak) {
            return k;
        }
        if runs && calls[6 * k + 4] != 0 {
            return k;
        }
        outcomes[k] = 0;
        k += 1;
    }
    k
}

// How many ticks a run has before its last, if it has begun; else 0.
pub fn room(run: u32, spent: u32) -> u32
    requires { spent < run }
    ensures { result ≡ cond (eqb spent 0) 0 (run - spent - 1) }
{
    if spent == 0 { 0 } else { run - spent - 1 }
}

// The place that so many calls reach from another on, n at the most.
pub fn reach(from: usize, calls: u32, n: usize) -> usize
    requires { from ≤ n }
    ensures { result ≡ min n (from + calls) }
{
    from.saturating_add(calls as usize).min(n)
}

// The words so many ticks later, in which nothing happened.
pub fn later(w: Words, ticks: usize) -> Words
    requires { w.tick + ticks < 2 ^ 64 }
    ensures { result ≡ later_by ticks w }
{
    Words {
        tick: w.tick + ticks as u64,
        ..w
    }
}
