// Steps 2 to 4 of a tick on words of bits, by the rows of the wiring.
#![tactic(auto)]

ghost use Rattle.std.specs.Prelude.{◌≡◌, ◌||◌, ◌<◌, ◌^◌, eqb};
ghost use Rattle.steps.specs.Steps.{Sleeps, Completes, Ends, Chosen, Starts, GoesOn, Works, Workable, Passes};

use arrivals::fire;
use model::Policy;
use sets::Set;
use wiring::{Row, Wiring};
use words::{Words, kept_bits};

// Task h, whose run begins and ends in this tick, sleeps, and no link into it is fresh.
fn sleep(rows: &[Row; 64], h: usize, w: Words) -> Words
    requires { h < 64 }
    ensures { Sleeps rows.now h w result }
{
    Words {
        woken: w.woken.without(sets::one(h)),
        fresh: w.fresh.without(rows[h].into),
        ..w
    }
}

// The run of task h, which began before this tick, ends and nobody goes on: what it has taken is served, and what has come since is still fresh.
fn complete(rows: &[Row; 64], h: usize, w: Words) -> Words
    requires { h < 64 }
    ensures { Completes rows.now h w result }
{
    let into = rows[h].into;
    let served = w.taken.both(into);
    Words {
        part: w.part.without(sets::one(h)),
        running: 0,
        taken: w.taken.without(into),
        dropped: w.dropped.union(w.fresh.both(served)),
        ..w
    }
}

// The run of task h, which had used some ticks before this one, ends.
fn end(rows: &[Row; 64], h: usize, spent: u32, w: Words) -> Words
    requires { h < 64 }
    ensures { Ends rows.now h spent w result }
{
    if spent == 0 {
        sleep(rows, h, w)
    } else {
        complete(rows, h, w)
    }
}

// Whether a run ends: the task has used its longest run, or the caller says so.
fn ends(used: u32, run: u32, finish: bool) -> bool
    ensures { result ≡ (eqb used run || finish) }
{
    used == run || finish
}

// The task that runs: the one that goes on, or else the highest awake.
pub fn chosen(running: usize, awake: u64) -> usize
    requires { 0 < awake }
    ensures { Chosen running awake result }
{
    if running == 0 {
        sets::last(awake)
    } else {
        running
    }
}

// The run of task h begins and is not over: it takes what is fresh on links into it, and on the hold-on model it goes on.
fn begin(p: Policy, rows: &[Row; 64], h: usize, w: Words) -> Words
    requires { h < 64 }
    ensures { Starts p rows.now h w result }
{
    let into = rows[h].into;
    Words {
        woken: w.woken.without(sets::one(h)),
        part: sets::with(w.part, h),
        running: h & kept_bits(p),
        fresh: w.fresh.without(into),
        taken: w.taken.union(w.fresh.both(into)),
        ..w
    }
}

// The run of task h, which had used some ticks before this one, is not over.
fn go_on(p: Policy, rows: &[Row; 64], h: usize, spent: u32, w: Words) -> Words
    requires { h < 64 }
    ensures { GoesOn p rows.now h spent w result }
{
    if spent == 0 { begin(p, rows, h, w) } else { w }
}

// Steps 2 and 3: the task that goes on runs, or else the highest awake, and its run ends if this tick ends it. A run of one tick at the most is not
// looked up.
pub fn work(p: Policy, wiring: &Wiring, finish: bool, w: Words, used: &mut [u32; 32]) -> Words
    requires { Workable w used.old }
    ensures { Works p wiring.now.rows wiring.now.runs finish w used.old result used.new }
{
    let awake = w.woken.union(w.part);
    if awake == 0 {
        return w;
    }
    let h = chosen(w.running, awake);
    let run = wiring.runs[h - 1];
    if run == 1 {
        return fire(&wiring.rows, h, sleep(&wiring.rows, h, w));
    }
    let spent = used[h - 1];
    let more = spent + 1;
    if ends(more, run, finish) {
        used[h - 1] = 0;
        return fire(&wiring.rows, h, end(&wiring.rows, h, spent, w));
    }
    used[h - 1] = more;
    go_on(p, &wiring.rows, h, spent, w)
}

// Step 4: ages rise by one, up to the longest spacing.
pub fn pass(w: Words) -> Words
    requires { w.tick < 2 ^ 63 }
    ensures { Passes w result }
{
    Words {
        tick: w.tick + 1,
        ..w
    }
}
