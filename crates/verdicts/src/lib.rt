// Verdicts on the links of a description. What is worked out once for a description (`Tables`), whether the critical links to a
// task are held at given spacings (`level`), the verdict on each link at given spacings (`slots`), and the verdict call.
#![tactic(auto)]

use level::{Level, critical_of};
use loads::Summands;
use loads::levels::{hold_starts_of, levels_of, starts_of};
use model::{Description, Policy, Refusal, Rejection, Verdict, VerdictSlot, Verdicts};
use neighbourhoods::{orders_held, orders_of};
use slots::slots_at;
use spacings::{Sources, gaps_by, on_knob, sources_of};

pub mod level;
pub mod slots;

ghost use Rattle.std.specs.Prelude.{◌≡◌, ℕ, ◌≤◌, ◌<◌, get_or};
ghost use Rattle.model.specs.declared.Description.{Description};
ghost use Rattle.model.specs.Verdicts.{verdicts};
ghost use Rattle.theory.proofs.WellFormed.{WellFormed};
ghost use Rattle.loads.specs.Tables.{LoadsOf};
ghost use Rattle.verdicts.specs.Tables.{below_of, StartsOf, TailsOf, TablesOf, seen, task_level};
ghost use Rattle.verdicts.specs.Slots.{refused_verdicts};

// What is worked out once for a description, whatever the tempo: its sources in plain numbers; for each task the loads of sources
// that its rounds go by (16 places a task), the start of its rounds, what its delay has beyond them, and the sources with a critical link to it; for
// each link whether it is in order, and whether all critical ones between tasks are. Where the model has a say, it has it here alone.
#[derive(Clone, Copy)]
pub struct Tables {
    pub tasks: usize,
    pub sources: Sources,
    pub levels: [[u64; 16]; 32],
    pub starts: [u64; 32],
    pub tails: [u32; 32],
    pub critical: [u64; 32],
    pub orders: [bool; 256],
    pub ordered: bool,
}

impl Tables {
    // The level of task j + 1.
    pub fn level(&self, j: usize) -> Level<'_>
        requires { j < 32 }
        ensures { seen result ≡ task_level self.now j }
    {
        Level {
            start: self.starts[j],
            loads: &self.levels[j],
            tail: u64::from(self.tails[j]),
            critical: self.critical[j],
        }
    }
}

// How many tasks from the lowest on have no row in the table of levels.
fn below_of(p: Policy) -> usize
    ensures { result ≡ below_of p }
{
    match p {
        Policy::Preemptive => 0,
        Policy::HoldOn => 1,
    }
}

// Where the rounds of each task start, by their runs and by what their loads are sums of.
fn starts_by(p: Policy, runs: &[u32; 32], s: &Summands) -> [u64; 32]
    requires { (k : ℕ) → k < s.now.count → get_or runs.now k 0 ≤ 10000000 }
    ensures { (d : Description) → LoadsOf d s.now.brings.now s.now.works.now → runs.now ≡ d.runs → s.now.count ≡ d.task_count → StartsOf p d result }
{
    match p {
        Policy::Preemptive => starts_of(s),
        Policy::HoldOn => hold_starts_of(s, runs),
    }
}

// What the delay of each task has beyond its rounds: on the hold-on model its own run.
fn tails_of(p: Policy, runs: [u32; 32]) -> [u32; 32]
    ensures { (d : Description) → d.task_count ≤ 32 → runs ≡ d.runs → TailsOf p d result }
{
    match p {
        Policy::Preemptive => [0u32; 32],
        Policy::HoldOn => runs,
    }
}

// The tables of a judged description, from the sets and works that its loads are sums of.
pub fn tables_of(p: Policy, d: Description, brings: &[u64; 48], works: &[u64; 32]) -> Tables
    requires { WellFormed d × LoadsOf d brings.now works.now }
    ensures { TablesOf p d result }
{
    let n = d.task_count;
    let summands = Summands {
        brings,
        works,
        count: n,
    };
    // Before the rest: as a field of the answer their place is cleared once more.
    let levels = levels_of(&summands, d.source_count, below_of(p));
    let orders = orders_of(d);
    let ordered = orders_held(d, &orders);
    Tables {
        tasks: n,
        sources: sources_of(d),
        levels,
        starts: starts_by(p, &d.runs, &summands),
        tails: tails_of(p, d.runs),
        critical: critical_of(d),
        orders,
        ordered,
    }
}

// Beside a refusal every verdict is free.
fn refused(rejection: Rejection) -> Verdicts
    ensures { result ≡ refused_verdicts rejection.why rejection.place }
{
    Verdicts {
        outcome: Err(rejection),
        slots: [VerdictSlot {
            verdict: Verdict::Free,
        }; 256],
    }
}

// The verdict on each link of a description at tempo t.
pub fn verdicts(p: Policy, d: Description, t: u32) -> Verdicts
    ensures { result ≡ verdicts p d t }
{
    let judged = match files::examine_record(d) {
        Ok(judged) => judged,
        Err(rejection) => return refused(rejection),
    };
    if !on_knob(t) {
        return refused(Refusal::OffKnob.at(0));
    }
    let tables = tables_of(p, d, &judged.worked.brings, &judged.worked.works);
    let gaps = gaps_by(&tables.sources, t);
    Verdicts {
        outcome: Ok(()),
        slots: slots_at(d, &tables, &gaps),
    }
}
