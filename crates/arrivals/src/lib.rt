// Firing on words of bits, by the rows of the wiring: the links out of a node, and step 1 of a tick, with the tempos that sources keep.
#![tactic(auto)]

ghost use Rattle.std.specs.Prelude.{◌≡◌, ℕ, ◌<◌, length, get_or};
ghost use Rattle.arrivals.specs.Parts.{Sourced};
ghost use Rattle.words.specs.Words.{raised_to};
ghost use Rattle.arrivals.specs.Arrivals.{Sent, Fires, at_tempos, Arrives, Folds};

use sets::Set;
use sets::wide::Wide;
use wiring::Row;
use words::Words;

// Links fire together: each that is fresh is dropped, each is fresh anew, and their tasks are woken.
fn send(w: Words, out: Wide, wakes: u64) -> Words
    ensures { Sent w out wakes result }
{
    Words {
        woken: w.woken.union(wakes),
        fresh: w.fresh.union(out),
        dropped: w.dropped.union(w.fresh.both(out)),
        ..w
    }
}

// Node x fires: each link out of it that is fresh is dropped, is fresh anew and wakes its task.
pub fn fire(rows: &[Row; 64], x: usize, w: Words) -> Words
    requires { x < 64 }
    ensures { Fires rows.now x w result }
{
    send(w, rows[x].out, rows[x].wakes)
}

// What a kept tempo becomes by a faster one: the larger of the two; 0 stays 0.
fn raised(f: u32, t: u32) -> u32
    ensures { result ≡ raised_to t f }
{
    if f == 0 { 0 } else { f.max(t) }
}

pub fn raise(t: u32, fastest: &mut [u32; 16])
    requires { length fastest.old ≡ 16 }
    ensures { (length fastest.new ≡ 16) × ((u : ℕ) → u < 16 → get_or fastest.new u 0 ≡ raised_to t (get_or fastest.old u 0)) }
{
    for kept in fastest.iter_mut() {
        *kept = raised(*kept, t);
    }
}

// Kept tempos rise up to the fastest given, none being below low. With the knob at rest (peak, t and low are one) none is looked at.
fn fold(t: u32, peak: u32, low: u32, fastest: &mut [u32; 16])
    requires { length fastest.old ≡ 16 }
    ensures { Folds peak low fastest.old fastest.new }
{
    if peak == t && t == low {
        return;
    }
    raise(peak, fastest)
}

// Step 1 at tempo t, peak being the fastest given since the last arrival: each arriving source fires, its age becomes 0, and it keeps t. Links out of
// different sources are different links, so those out of all that arrive fire together. Most often one arrives.
pub fn arrive(
    rows: &[Row; 64],
    t: u32,
    peak: u32,
    mask: u64,
    w: Words,
    since: &mut [u64; 16],
    fastest: &mut [u32; 16],
) -> Words
    requires { (0 < mask) × Sourced mask × (length since.old ≡ 16) × (length fastest.old ≡ 16) }
    ensures { Arrives rows.now t peak mask w since.old fastest.old result since.new fastest.new }
{
    fold(t, peak, w.low, fastest);
    let one = sets::first(mask);
    let mut out = rows[33 + one].out;
    let mut wakes = rows[33 + one].wakes;
    since[one] = w.tick;
    fastest[one] = t;
    let mut rest = sets::rest(mask);
    // By `first` and `rest`: an iterator over members, a type with laws of its own for two loops, would be no plainer.
    while rest != 0 {
        let u = sets::first(rest);
        out = out.union(rows[33 + u].out);
        wakes = wakes.union(rows[33 + u].wakes);
        since[u] = w.tick;
        fastest[u] = t;
        rest = sets::rest(rest);
    }
    at_tempos(t, t, send(w, out, wakes))
}

// The words with other tempos.
pub fn at_tempos(low: u32, peak: u32, w: Words) -> Words
    ensures { result ≡ at_tempos low peak w }
{
    Words { low, peak, ..w }
}
