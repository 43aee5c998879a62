// The machine's record from words of bits, and words from a record.
#![tactic(auto)]

ghost use Rattle.std.specs.Prelude.{◌≡◌, true, false, ◌||◌, ◌&&◌, List, ℕ, ◌+◌, ◌-◌, ◌≤◌, ◌<◌, min, get_or, length, leb};
ghost use Rattle.sets.specs.Sets.{member};
ghost use Rattle.sets.specs.Wide.{inside};
ghost use Rattle.words.specs.Words.{holds_on, Goes};
ghost use Rattle.records.specs.Record.{OnePart, TasksOf, PartIn, LinksOf, Into, AgesOf, SinceOf, Unpacks, Packs, Begins};

use model::{Machine, Policy};
use sets::Set;
use sets::wide::Wide;
use std::array::from_fn;
use wiring::{Row, Wiring};
use words::{Words, kept_bits};

// The tick at which a record is made words.
const FIRST_TICK: u64 = 4294967296;

// The words at the start: all tasks sleep and marks are clear.
pub fn begin() -> Words
    ensures { Begins result }
{
    Words {
        woken: 0,
        part: 0,
        running: 0,
        fresh: Wide::none(),
        taken: Wide::none(),
        dropped: Wide::none(),
        tick: FIRST_TICK,
        low: 0,
        peak: 200,
    }
}

// The numbers of the marks that are set, the first mark having the number first.
pub fn marked_from(first: usize, marks: &[bool]) -> u64
    requires { first + length marks.now ≤ 64 }
    ensures { (j : ℕ) → member result j ≡ (leb first j && get_or marks.now (j - first) false) }
{
    let mut set = 0;
    for (k, marked) in marks.iter().enumerate() {
        if *marked {
            set = sets::with(set, first + k);
        }
    }
    set
}

// The marks of the links as a set.
fn links_in(marks: &[bool; 256]) -> Wide
    requires { length marks.now ≡ 256 }
    ensures { (l : ℕ) → inside result l ≡ get_or marks.now l false }
{
    Wide {
        words: [
            marked_from(0, &marks[..64]),
            marked_from(0, &marks[64..128]),
            marked_from(0, &marks[128..192]),
            marked_from(0, &marks[192..]),
        ],
    }
}

// The marks of the tasks of a word, whose bit k is task k.
fn tasks_of(set: u64) -> [bool; 32]
    ensures { TasksOf set result }
{
    from_fn(|k| sets::has(set, k + 1))
}

// The marks of the links in a set.
fn links_of(set: Wide) -> [bool; 256]
    ensures { LinksOf set result }
{
    from_fn(|l| set.has(l))
}

// The age of a source whose age was 0 at a tick: the ticks since then, up to its longest spacing.
fn age_at(gap: u32, since: u64, tick: u64) -> u32
    ensures { result ≡ min gap (tick - since) }
{
    tick.saturating_sub(since).min(u64::from(gap)) as u32
}

// The ages of the sources that exist, and 0 for the others.
pub fn ages_of(gaps: &[u32; 16], sources: usize, since: &[u64; 16], tick: u64) -> [u32; 16]
    requires { sources ≤ 16 }
    ensures { AgesOf gaps.now sources since.now tick result }
{
    let mut ages = [0; 16];
    for u in 0..sources {
        ages[u] = age_at(gaps[u], since[u], tick);
    }
    ages
}

// The ticks at which ages were 0, the ticks being counted from the first on.
pub fn since_of(ages: &[u32; 16]) -> [u64; 16]
    ensures { SinceOf ages.now result }
{
    ages.map(|age| FIRST_TICK - u64::from(age))
}

// The links into some tasks.
fn links_into(rows: &[Row; 64], tasks: u64) -> Wide
    ensures { Into rows.now tasks result }
{
    let mut set = Wide::none();
    for (k, row) in rows[..33].iter().enumerate() {
        if sets::has(tasks, k) {
            set = set.union(row.into);
        }
    }
    set
}

// The record that words hold, with what tasks have used and the tempos that are kept.
pub fn unpack(
    wiring: &Wiring,
    gaps: &[u32; 16],
    w: Words,
    used: [u32; 32],
    since: &[u64; 16],
    fastest: [u32; 16],
) -> Machine
    requires { wiring.now.sources ≤ 16 }
    ensures { Unpacks wiring.now.rows gaps.now wiring.now.sources w used since.now fastest result }
{
    let entered = links_into(&wiring.rows, w.part);
    Machine {
        awake: tasks_of(w.woken.union(w.part)),
        used,
        waiting: links_of(w.fresh.union(w.taken)),
        dropped: links_of(w.dropped.union(w.fresh.both(w.taken))),
        ages: ages_of(gaps, wiring.sources, since, w.tick),
        fastest,
        again: tasks_of(w.woken.both(w.part)),
        late: links_of(w.fresh.both(entered)),
    }
}

// The task that goes on: on the hold-on model the one that is part done.
fn running_in(p: Policy, part: u64) -> usize
    ensures { (used : List ℕ) → length used ≡ 32 → PartIn used part → (holds_on p ≡ true → OnePart used) → Goes p result used }
{
    if part == 0 {
        0
    } else {
        sets::last(part) & kept_bits(p)
    }
}

// The words of a record and the ticks at which ages were 0; what tasks have used and the tempos that are kept stay as they are.
#[derive(Clone, Copy)]
pub struct Packed {
    pub words: Words,
    pub since: [u64; 16],
}

// A link into a task that is part done has been taken by its run, if it waits and is not late; any other that waits is fresh.
pub fn pack(p: Policy, rows: &[Row; 64], m: Machine) -> Packed
    ensures { Packs p rows.now m result.words result.since }
{
    let part = marked_from(1, &m.used.map(|ticks| 0 < ticks));
    let waiting = links_in(&m.waiting);
    let taken = waiting
        .both(links_into(rows, part))
        .without(links_in(&m.late));
    let words = Words {
        woken: marked_from(1, &m.awake)
            .without(part)
            .union(marked_from(1, &m.again)),
        part,
        running: running_in(p, part),
        fresh: waiting.without(taken),
        taken,
        dropped: links_in(&m.dropped),
        ..begin()
    };
    Packed {
        words,
        since: since_of(&m.ages),
    }
}
