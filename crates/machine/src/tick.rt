// The tick call on a record by value, once its description is judged.

ghost use Rattle.std.specs.Prelude.{◌≡◌};
ghost use Rattle.model.specs.Refusals.{Refused};
ghost use Rattle.model.specs.Run.{marks_in};
ghost use Rattle.arrivals.specs.Parts.{Sourced};
ghost use Rattle.machine.specs.Calls.{Accepted, TickIs};

use crate::call::{Call, advance};
use arrivals::raise;
use model::{Arrivals, Machine, Policy, Refusal, Ticked};
use records::{marked_from, pack, unpack};
use rules::lawful;
use spacings::Sources;
use wiring::Wiring;

// The mask of some arrivals.
fn mask_of(a: Arrivals) -> u64
    ensures { Sourced result × (marks_in result ≡ a.marks) }
{
    marked_from(0, &a.marks)
}

// A refused tick leaves the record as it was.
pub fn refused(why: Refusal, m: Machine) -> Ticked
    ensures { result ≡ record { outcome = Refused why 0; machine = m } }
{
    Ticked {
        outcome: Err(why.at(0)),
        machine: m,
    }
}

// The tick call at a tempo on the knob: 16, 15 and 14 in this order, or else the record one tick later.
pub fn tick_judged(
    p: Policy,
    w: Wiring,
    s: Sources,
    longest: [u32; 16],
    t: u32,
    m: Machine,
    a: Arrivals,
    finish: bool,
) -> Ticked
    requires { Accepted w s longest }
    ensures { TickIs p w s longest t m a finish result }
{
    if !lawful(p, &w, &longest, &m) {
        return refused(Refusal::ForeignState, m);
    }
    let call = Call {
        mask: mask_of(a),
        tempo: t,
        finish,
    };
    let packed = pack(p, &w.rows, m);
    let mut used = m.used;
    let mut since = packed.since;
    let mut fastest = m.fastest;
    let done = advance(
        p,
        &w,
        &s,
        call,
        packed.words,
        &mut used,
        &mut since,
        &mut fastest,
    );
    raise(done.words.peak, &mut fastest);
    Ticked {
        outcome: done.outcome,
        machine: unpack(&w, &longest, done.words, used, &since, fastest),
    }
}
