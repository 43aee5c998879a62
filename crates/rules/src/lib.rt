// The rules of the machine's record.
#![tactic(auto)]

ghost use Rattle.std.specs.Prelude.{◌≡◌, ◌||◌, ◌&&◌, not, cond, ltb, leb, eqb};
ghost use Rattle.model.specs.Verdicts.{on_knob};
ghost use Rattle.rules.specs.Rules.{Enters, TasksLawful, AbsentLawful, EachLinkLawful, LinksLawful, SourcesLawful, AgainsLawful, EachLateLawful, LatesLawful, RulesKept, parts_in, Alone, Lawful};

use model::{Machine, Policy};
use spacings::on_knob;
use wiring::Wiring;

// Used is below the longest run, and 0 for a sleeping task; nothing is set for an absent one.
fn task_lawful(here: bool, run: u32, awake: bool, used: u32) -> bool
    ensures { result ≡ cond here (ltb used run && (awake || eqb used 0)) (not awake && eqb used 0) }
{
    if here {
        used < run && (awake || used == 0)
    } else {
        !awake && used == 0
    }
}

fn tasks_lawful(w: &Wiring, m: &Machine) -> bool
    ensures { TasksLawful w.now m.now result }
{
    (0..32).all(|k| task_lawful(k < w.tasks, w.runs[k], m.awake[k], m.used[k]))
}

// Nothing is set for an absent link.
fn absent_lawful(marks: &[bool; 256], links: usize) -> bool
    ensures { AbsentLawful marks.now links result }
{
    (links..256).all(|l| !marks[l])
}

// A waiting link's task is awake. `Enters` stays in the clauses: as a ghost field of `Wiring` it would ask more of those that lend one
// to `steps::work` and `machine::advance`.
fn each_link_lawful(w: &Wiring, m: &Machine) -> bool
    requires { Enters w.now.to w.now.links }
    ensures { EachLinkLawful w.now m.now result }
{
    (0..w.links).all(|l| !m.waiting[l] || m.awake[usize::from(w.to[l]) - 1])
}

fn links_lawful(w: &Wiring, m: &Machine) -> bool
    requires { Enters w.now.to w.now.links }
    ensures { LinksLawful w.now m.now result }
{
    each_link_lawful(w, m)
        && absent_lawful(&m.waiting, w.links)
        && absent_lawful(&m.dropped, w.links)
}

// Ages do not exceed the spacings for 20.0; a kept tempo is 0, with the age as at the start, or on the knob; nothing is set for an absent source.
fn source_lawful(here: bool, gap: u32, age: u32, fastest: u32) -> bool
    ensures { result ≡ cond here (leb age gap && cond (eqb fastest 0) (eqb age gap) (on_knob fastest)) (eqb age 0 && eqb fastest 0) }
{
    if !here {
        age == 0 && fastest == 0
    } else if fastest == 0 {
        age == gap
    } else {
        age <= gap && on_knob(fastest)
    }
}

fn sources_lawful(w: &Wiring, gaps: &[u32; 16], m: &Machine) -> bool
    ensures { SourcesLawful w.now gaps.now m.now result }
{
    (0..16).all(|u| source_lawful(u < w.sources, gaps[u], m.ages[u], m.fastest[u]))
}

// Only a task that is part done is marked again.
fn agains_lawful(m: &Machine) -> bool
    ensures { AgainsLawful m.now result }
{
    (0..32).all(|k| !m.again[k] || 0 < m.used[k])
}

// A late link waits, and its task is marked again.
fn each_late_lawful(w: &Wiring, m: &Machine) -> bool
    requires { Enters w.now.to w.now.links }
    ensures { EachLateLawful w.now m.now result }
{
    (0..w.links).all(|l| !m.late[l] || m.waiting[l] && m.again[usize::from(w.to[l]) - 1])
}

fn lates_lawful(w: &Wiring, m: &Machine) -> bool
    requires { Enters w.now.to w.now.links }
    ensures { LatesLawful w.now m.now result }
{
    each_late_lawful(w, m) && absent_lawful(&m.late, w.links)
}

// Whether a record keeps the rules of both models, the spacings being those for 20.0.
fn rules_kept(w: &Wiring, gaps: &[u32; 16], m: &Machine) -> bool
    requires { Enters w.now.to w.now.links }
    ensures { RulesKept w.now gaps.now m.now result }
{
    tasks_lawful(w, m)
        && links_lawful(w, m)
        && sources_lawful(w, gaps, m)
        && agains_lawful(m)
        && lates_lawful(w, m)
}

// How many tasks are part done.
fn parts_done(used: &[u32; 32]) -> usize
    ensures { result ≡ parts_in used.now }
{
    let mut count = 0;
    for ticks in used {
        if 0 < *ticks {
            count += 1;
        }
    }
    count
}

// On the hold-on model one task at most is part done.
fn alone(p: Policy, m: &Machine) -> bool
    ensures { Alone p m.now result }
{
    match p {
        Policy::Preemptive => true,
        Policy::HoldOn => parts_done(&m.used) <= 1,
    }
}

// Whether a record keeps the rules; 16 otherwise.
pub fn lawful(p: Policy, w: &Wiring, gaps: &[u32; 16], m: &Machine) -> bool
    requires { Enters w.now.to w.now.links }
    ensures { Lawful p w.now gaps.now m.now result }
{
    rules_kept(w, gaps, m) && alone(p, m)
}
