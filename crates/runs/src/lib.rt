// A run of many tick calls from the start: the description is judged and tabulated once, and the record is kept as words of bits.
#![tactic(auto)]

ghost use Rattle.std.specs.Prelude.{◌≡◌, ◌-◌, ◌≤◌, ◌<◌, get_or};
ghost use Rattle.model.specs.Refusals.{Done};
ghost use Rattle.model.specs.File.{judge};
ghost use Rattle.theory.proofs.WellFormed.{WellFormed};
ghost use Rattle.machine.specs.Calls.{Accepted};
ghost use Rattle.model.specs.Run.{calls_in};
ghost use Rattle.runs.specs.Run.{RoomOf, RunIs, RunOf};

use arrivals::raise;
use machine::call::{Call, advance};
use machine::tick::refused;
use model::{Description, Policy, Refusal, Ticked};
use passing::{code, later, mask_in, peek, reach, room, skip, tempo_in};
use records::{begin, since_of, unpack};
use refusals::blank_machine;
use sets::Set;
use spacings::{Sources, gaps_by, sources_of};
use steps::chosen;
use wiring::{Wiring, wiring_of};

// How many ticks a run of task h has before its last, if it has begun; else 0.
fn room_of(w: &Wiring, h: usize, used: &[u32; 32]) -> u32
    requires { (1 ≤ h) × (h ≤ 32) × (get_or used.now (h - 1) 0 < get_or w.now.runs (h - 1) 0) }
    ensures { RoomOf w.now h used.now result }
{
    room(w.runs[h - 1], used[h - 1])
}

// The calls of a wiring from the start, six bytes each. Each call's refusal, or 0, goes to its place of the buffer; one that does
// not hold them all is refused as too short (13). A call's head is read while the one before is worked out, so that nothing waits
// for it.
pub fn run_wired(
    p: Policy,
    w: Wiring,
    s: Sources,
    longest: [u32; 16],
    calls: &[u8],
    outcomes: &mut [u8],
) -> Ticked
    requires { Accepted w s longest }
    ensures { RunIs p w s longest (calls_in calls.now) outcomes.old outcomes.new result }
{
    let n = calls.len() / 6;
    if outcomes.len() < n {
        return refused(Refusal::ShortPage, blank_machine());
    }
    let mut words = begin();
    let mut used = [0; 32];
    let mut since = since_of(&longest);
    let mut fastest = [0; 16];
    // No `for`: a turn goes past all calls that it passes.
    let mut i = 0;
    let mut head = peek(calls, 0, n);
    while i < n {
        let ahead = peek(calls, i + 1, n);
        let call = Call {
            mask: mask_in(head),
            tempo: tempo_in(head),
            finish: calls[6 * i + 4] != 0,
        };
        let done = advance(p, &w, &s, call, words, &mut used, &mut since, &mut fastest);
        outcomes[i] = code(done.outcome);
        let next = done.words;
        let awake = next.woken.union(next.part);
        if awake == 0 {
            let to = skip(false, calls, i + 1, n, next.peak, outcomes);
            words = later(next, to - i - 1);
            i = to;
            head = peek(calls, to, n);
            continue;
        }
        if next.part == 0 {
            words = next;
            i += 1;
            head = ahead;
            continue;
        }
        let h = chosen(next.running, awake);
        let left = room_of(&w, h, &used);
        if left == 0 {
            words = next;
            i += 1;
            head = ahead;
            continue;
        }
        let end = skip(
            true,
            calls,
            i + 1,
            reach(i + 1, left, n),
            next.peak,
            outcomes,
        );
        used[h - 1] += (end - i - 1) as u32;
        words = later(next, end - i - 1);
        i = end;
        head = peek(calls, end, n);
    }
    raise(words.peak, &mut fastest);
    Ticked {
        outcome: Ok(()),
        machine: unpack(&w, &longest, words, used, &since, fastest),
    }
}

// The same of a description that is judged as done.
pub fn run_judged(p: Policy, d: Description, calls: &[u8], outcomes: &mut [u8]) -> Ticked
    requires { WellFormed d × (judge d ≡ Done) }
    ensures { RunOf p d (calls_in calls.now) outcomes.old outcomes.new result }
{
    let s = sources_of(d);
    let longest = gaps_by(&s, 200);
    run_wired(p, wiring_of(d), s, longest, calls, outcomes)
}
