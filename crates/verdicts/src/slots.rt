// The verdict on each link from the tables, at given spacings.

ghost use Rattle.std.specs.Prelude.{◌≡◌, ℕ, ◌≤◌, ◌<◌, get_or};
ghost use Rattle.model.specs.Basics.{tab};
ghost use Rattle.theory.proofs.WellFormed.{WellFormed};
ghost use Rattle.spacings.specs.Gaps.{Fit};
ghost use Rattle.verdicts.specs.Slots.{verdict_by, gap_by, by_tables, slot_by, limit_by, LimitsOf, Leveled, ReachesBy, SlotTabled, SlotsBy};

use crate::Tables;
use crate::level::source_of;
use model::{Description, Link, Verdict, VerdictSlot};
use reach::level_reach;

// The spacing of a link's source; 0 where the link comes from a task.
fn gap_by(link: Link, gaps: &[u32; 16]) -> u32
    requires { link.from < 49 }
    ensures { result ≡ gap_by gaps.now link }
{
    match source_of(link) {
        Some(u) => gaps[u],
        None => 0,
    }
}

// The same for a critical link, or 0 for any other.
fn limit_by(link: Link, gaps: &[u32; 16]) -> u64
    requires { link.from < 49 }
    ensures { result ≡ limit_by gaps.now link }
{
    if link.critical == 1 {
        u64::from(gap_by(link, gaps))
    } else {
        0
    }
}

// For each task the largest spacing of a source that has a critical link to it.
fn limits_at(d: Description, gaps: &[u32; 16]) -> [u64; 32]
    requires { WellFormed d × ((u : ℕ) → get_or gaps.now u 0 ≤ 1000000000) }
    ensures { LimitsOf d gaps.now result }
{
    let mut limits = [0u64; 32];
    for link in &d.links[..d.link_count] {
        let at = usize::from(link.to) - 1;
        limits[at] = limits[at].max(limit_by(*link, gaps));
    }
    limits
}

// Where the delay of each of n tasks comes to, its rounds below its limit, at the spacings of m sources.
fn reaches_at(t: &Tables, gaps: &[u32; 16], limits: &[u64; 32], n: usize, m: usize) -> [u64; 32]
    requires { Leveled t.now n m × Fit m gaps.now × ((j : ℕ) → get_or limits.now j 0 ≤ 1000000000) }
    ensures { ReachesBy t.now gaps.now limits.now n m result }
{
    let mut reaches = [0u64; 32];
    for j in 0..n {
        let rounds = rounds::Level {
            start: t.starts[j],
            loads: &t.levels[j],
            gaps,
            count: m,
        };
        let tail = u64::from(t.tails[j]);
        let limit = limits[j].saturating_sub(tail);
        reaches[j] = level_reach(&rounds, limit) + tail;
    }
    reaches
}

// The verdict on a link: whether it is in order, its source's spacing, and where its task's delay comes to.
fn verdict_by(link: Link, order: bool, gap: u32, reach: u64) -> Verdict
    ensures { result ≡ verdict_by link order gap reach }
{
    if link.critical == 0 {
        return Verdict::Free;
    }
    if link.from < 33 {
        if order {
            return Verdict::HeldOrder;
        }
        return Verdict::DoubtOrder;
    }
    if reach < u64::from(gap) {
        return Verdict::Held(reach as u32, gap);
    }
    Verdict::Doubt(gap)
}

// The verdict on one link, from the tables.
fn verdict_from(link: Link, order: bool, gaps: &[u32; 16], reaches: &[u64; 32]) -> Verdict
    requires { (link.from < 49) × (1 ≤ link.to) × (link.to ≤ 32) }
    ensures { result ≡ by_tables order gaps.now reaches.now link }
{
    let gap = gap_by(link, gaps);
    verdict_by(link, order, gap, reaches[usize::from(link.to) - 1])
}

// The verdicts on all links.
fn decide_all(
    d: Description,
    orders: &[bool; 256],
    gaps: &[u32; 16],
    reaches: &[u64; 32],
) -> [VerdictSlot; 256]
    requires { WellFormed d }
    ensures { result ≡ tab 256 (slot_by d orders.now gaps.now reaches.now) }
{
    let mut slots = [VerdictSlot {
        verdict: Verdict::Free,
    }; 256];
    for (l, link) in d.links[..d.link_count].iter().enumerate() {
        let verdict = verdict_from(*link, orders[l], gaps, reaches);
        slots[l] = VerdictSlot { verdict };
    }
    slots
}

// The verdicts on all links at the spacings of a table, from the tables that are worked out once. Of these the levels, the
// starts, the tails and the orders are read alone.
pub fn slots_at(d: Description, t: &Tables, gaps: &[u32; 16]) -> [VerdictSlot; 256]
    requires { SlotTabled d t.now × Fit d.source_count gaps.now }
    ensures { SlotsBy d t.now gaps.now result }
{
    let limits = limits_at(d, gaps);
    let reaches = reaches_at(t, gaps, &limits, d.task_count, d.source_count);
    decide_all(d, &t.orders, gaps, &reaches)
}
