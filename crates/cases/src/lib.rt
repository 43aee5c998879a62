// What the programs that run figures share: a tally of those that agree and its line, the files of examples, and the
// comparison of a call's answer with what a document says.
#![tactic(auto)]

use model::{Policy, Rejection};
use refusals::number_of;
use std::io;

pub mod build;
pub mod example;
pub mod file;
pub mod page;
pub mod tick;
pub mod verdict;

// How many figures were run, how many agree, and the model that the next one is run on.
#[derive(Clone, Copy)]
pub struct Tally {
    pub policy: Policy,
    pub cases: u64,
    pub agree: u64,
}

// No figure yet; the first is run on the preemptive model.
pub fn none() -> Tally {
    Tally {
        policy: Policy::Preemptive,
        cases: 0,
        agree: 0,
    }
}

// The tally with further figures on a model.
pub fn on(policy: Policy, t: Tally) -> Tally {
    Tally { policy, ..t }
}

// No figure yet; the first is run on the hold-on model.
pub fn hold() -> Tally {
    on(Policy::HoldOn, none())
}

// The tally with one figure more.
pub fn counted(t: Tally, agree: bool) -> Tally {
    Tally {
        cases: t.cases.wrapping_add(1),
        agree: t.agree.wrapping_add(u64::from(agree)),
        ..t
    }
}

// An answer is a value, number 0, or refused with a number and a place.
pub fn tells(answer: Result<usize, Rejection>, number: usize, value: usize) -> bool {
    match answer {
        Ok(n) => number == 0 && n == value,
        Err(rejection) => number_of(rejection.why) == number && rejection.place == value,
    }
}

// An outcome is done, number 0, or refused with a number and a place.
pub fn is_outcome(outcome: Result<(), Rejection>, number: usize, place: usize) -> bool {
    tells(outcome.map(|_| place), number, place)
}

// The line of a group of figures: how many of them agree.
pub fn print(rt: &HostRuntime, name: &str, t: Tally) -> io::Result<()> {
    println!(rt; "{name}: {} of {} agree", t.agree, t.cases)
}
