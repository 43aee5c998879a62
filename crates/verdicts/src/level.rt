// One task's level: what its rounds go by, and whether every critical link from a source to it is held at given spacings.

ghost use Rattle.std.specs.Prelude.{◌≡◌, ◌||◌, ◌&&◌, ℕ, ◌+◌, ◌≤◌, ◌<◌, eqb, get_or, MatchOption};
ghost use Rattle.theory.proofs.WellFormed.{WellFormed};
ghost use Rattle.sets.specs.Sets.{member};
ghost use Rattle.rounds.specs.Level.{LevelOn, reach_in};
ghost use Rattle.verdicts.specs.Tables.{CriticalOf, seen, HeldBy, narrower_of, NarrowestIn};

use model::{Description, Link};
use reach::level_reach;
use sets::{has, with};

// What the rounds of a task go by: their start and the load of each source; then what its delay has beyond them, and the sources with a critical
// link to it.
#[derive(Clone, Copy)]
pub struct Level<'a> {
    pub start: u64,
    pub loads: &'a [u64; 16],
    pub tail: u64,
    pub critical: u64,
}

// The source that a link comes from, counted from 0; none where it comes from a task.
pub fn source_of(link: Link) -> Option<usize>
    ensures { MatchOption result (link.from < 33) (λ u. link.from ≡ 33 + u) }
{
    usize::from(link.from).checked_sub(33)
}

// A set of sources with the one of a critical link besides.
fn with_source(set: u64, link: Link) -> u64
    requires { link.from < 49 }
    ensures { (u : ℕ) → member result u ≡ (member set u || (eqb link.critical 1 && eqb link.from (33 + u))) }
{
    match source_of(link) {
        Some(u) if link.critical == 1 => with(set, u),
        _ => set,
    }
}

// For each task the set of the sources that have a critical link to it. The loop is that of `paths::successors`, by what a link adds to whom.
pub fn critical_of(d: Description) -> [u64; 32]
    requires { WellFormed d }
    ensures { CriticalOf d result }
{
    let mut sets = [0u64; 32];
    for link in &d.links[..d.link_count] {
        let at = usize::from(link.to) - 1;
        sets[at] = with_source(sets[at], *link);
    }
    sets
}

// The narrower of two spacings, where the second counts.
fn narrower(best: u64, counts: bool, gap: u64) -> u64
    ensures { result ≡ narrower_of best counts gap }
{
    if counts { best.min(gap) } else { best }
}

// The narrowest spacing of the sources in a set, of the first m; 2,000,000,000 where there is none. A number above every spacing keeps the least a
// plain minimum, and an Option would only be asked the same question.
fn narrowest(set: u64, gaps: &[u32; 16], m: usize) -> u64
    requires { m ≤ 16 }
    ensures { NarrowestIn set gaps.now m result }
{
    let mut best: u64 = 2000000000;
    for (u, gap) in gaps[..m].iter().enumerate() {
        best = narrower(best, has(set, u), u64::from(*gap));
    }
    best
}

// Where the rounds of a level come to below a limit, at the spacings of m sources.
pub fn reach_below(level: &Level, gaps: &[u32; 16], m: usize, limit: u64) -> u64
    requires { LevelOn level.now.start level.now.loads.now gaps.now m × (limit ≤ 1000000000) }
    ensures { result ≡ reach_in level.now.start level.now.loads.now gaps.now m limit }
{
    let rounds = rounds::Level {
        start: level.start,
        loads: level.loads,
        gaps,
        count: m,
    };
    level_reach(&rounds, limit)
}

// Whether every critical link from a source to a task is held, at the spacings of m sources. The link of the source with the narrowest spacing
// decides.
pub fn level_held(level: &Level, gaps: &[u32; 16], m: usize) -> bool
    requires { LevelOn level.now.start level.now.loads.now gaps.now m }
    ensures { HeldBy (seen level.now) gaps.now m result }
{
    if level.critical == 0 {
        return true;
    }
    let narrow = narrowest(level.critical, gaps, m);
    if 1000000000 < narrow {
        return true;
    }
    let limit = narrow.saturating_sub(level.tail);
    reach_below(level, gaps, m, limit) < limit
}
