// The rounds that work out how long a task's level may stay busy.
#![tactic(auto)]

ghost use Rattle.std.specs.Prelude.{◌≡◌, ◌+◌, ◌*◌, ◌/◌, ◌≤◌, ◌<◌};
ghost use Rattle.model.specs.Delays.{spacings};
ghost use Rattle.rounds.specs.Level.{LevelOn, round_in, Counted, more_by, NextRound, RoundAt, ShareOf, Shares, FlowEnd, Jump, ReachedBy};

// How many spacings of m ticks a stretch of d ticks holds: rounded up, and at least 1. The quotient is of 32 bits, whose
// division is faster.
pub fn spacings_in(d: u64, m: u64) -> u64
    requires { (1 ≤ m) × (m ≤ 1000000000) × (d ≤ 1000000000) }
    ensures { result ≡ spacings d m }
{
    if d <= m {
        return 1;
    }
    u64::from((d + (m - 1)) as u32 / m as u32)
}

// How far the firings counted for a source reach. One without a load brings nothing, and no d passes its end.
fn end_of(load: u64, count: u64, gap: u32) -> u64
    requires { (count ≤ 1000000000) × (gap ≤ 1000000000) }
    ensures { 0 < load → result ≡ count * gap }
{
    if load == 0 {
        return 1000000000;
    }
    count * u64::from(gap)
}

// One source in a round: the firings that d needs beyond those counted are counted, and their load is added to the sum.
fn count_on(load: u64, gap: u32, d: u64, end: &mut u64, sum: u64) -> u64
    requires { (load ≤ 1000000000) × (1 ≤ gap) × (gap ≤ 1000000000) × (d ≤ 1000000000) × (sum ≤ 17000000000000000000) }
    ensures { (end.new ≡ end.old + more_by d end.old gap * gap) × (result ≡ sum + load * more_by d end.old gap) × (result ≤ sum + 1000000000000000000) }
{
    if d <= *end {
        return sum;
    }
    let spacing = u64::from(gap);
    let count = spacings_in(d - *end, spacing);
    *end += count * spacing;
    sum + load * count
}

// A source's share of each tick in parts of 2^33, rounded down; all shares above a tick count alike.
fn share_of(load: u64, gap: u32) -> u64
    requires { (load ≤ 1000000000) × (1 ≤ gap) }
    ensures { ShareOf load gap result }
{
    let share = load * 8589934592 / u64::from(gap);
    share.min(8589934593)
}

// What the counted firings of a source bring.
pub fn brought(load: u64, gap: u32, end: u64) -> u64
    requires { (1 ≤ gap) × (load * (end / gap) ≤ 1000000000) }
    ensures { result ≡ load * (end / gap) }
{
    load * (end / u64::from(gap))
}

// The least length that holds a rest and a flow, 2^33 × rest / (2^33 - flow) rounded up; the limit where that is less, or no length does.
fn flow_end(rest: u64, flow: u64, limit: u64) -> u64
    requires { (rest ≤ 1000000000) × (flow ≤ 137438953488) }
    ensures { FlowEnd rest flow limit result }
{
    if 8589934592 <= flow {
        if 8589934592 < flow + rest {
            return limit;
        }
        return 0;
    }
    let bound = (8589934592 * rest + (8589934592 - flow - 1)) / (8589934592 - flow);
    bound.min(limit)
}

// Whether a jump is tried after so many rounds: after 32, in each eighth. It costs as much as some rounds, and on some
// levels none pays.
fn jumps(rounds: u64) -> bool {
    32 <= rounds && rounds % 8 == 0
}

// Where rounds stand. No Result: both are places, and neither is a failure.
#[derive(Clone, Copy)]
pub enum Reached {
    // The least d that one leaves unchanged, or the limit.
    Settled(u64),
    // A place that no fixed point is below.
    Open(u64),
}

// The level of a task: a start, and for each of the first few sources its load and its spacing. They are two lists, and
// lent, since one list of spacings serves all levels at a tempo.
#[derive(Clone, Copy)]
pub struct Level<'a> {
    pub start: u64,
    pub loads: &'a [u64; 16],
    pub gaps: &'a [u32; 16],
    pub count: usize,
    pub ghost on_scale: { LevelOn start loads.now gaps.now count },
}

impl Level<'_> {
    // A round at d: what the level may bring in a stretch of d ticks, with the firings of every source counted.
    pub fn round_at(&self, d: u64, ends: &mut [u64; 16]) -> u64
        requires { d ≤ 1000000000 }
        ensures { let level = self.now in (result ≡ round_in level.start level.loads.now level.gaps.now level.count d) × Counted level.loads.now level.gaps.now level.count d ends.new }
    {
        let mut sum = self.start;
        for u in 0..self.count {
            let load = self.loads[u];
            let gap = self.gaps[u];
            let count = spacings_in(d, u64::from(gap));
            ends[u] = end_of(load, count, gap);
            sum += load * count;
        }
        sum
    }

    // A round at d after one that came to a sum: what the level may bring in a stretch of d ticks.
    pub fn next_reach(&self, d: u64, before: u64, ends: &mut [u64; 16]) -> u64
        requires { (d ≤ 1000000000) × (before ≤ 1000000000) }
        ensures { NextRound self.now.loads.now self.now.gaps.now self.now.count d before ends.old ends.new result }
    {
        let mut sum = before;
        for u in 0..self.count {
            sum = count_on(self.loads[u], self.gaps[u], d, &mut ends[u], sum);
        }
        sum
    }

    // The shares of all sources, worked out once at most: most levels settle before they are asked for.
    pub fn fill_shares(&self, shares: &mut [u64; 16])
        requires { Shares self.now.loads.now self.now.gaps.now self.now.count shares.old }
        ensures { Shares self.now.loads.now self.now.gaps.now self.now.count shares.new }
    {
        for u in 0..self.count {
            shares[u] = share_of(self.loads[u], self.gaps[u]);
        }
    }

    // A lower bound of the level's fixed points: the sources whose firings end before a far place taken as a steady flow.
    // Ends and shares stay two lists: a round writes ends alone, and would have to say of both that shares stay.
    fn flow_bound(&self, ends: &[u64; 16], shares: &[u64; 16], far: u64, limit: u64) -> u64
        requires { let level = self.now in RoundAt level.start level.loads.now level.gaps.now level.count ends.now × Shares level.loads.now level.gaps.now level.count shares.now }
        ensures { let level = self.now in Jump level.start level.loads.now level.gaps.now level.count limit result }
    {
        let mut rest = self.start;
        let mut flow = 0;
        for u in 0..self.count {
            let end = ends[u];
            if end < far {
                flow += shares[u];
            } else {
                rest += brought(self.loads[u], self.gaps[u], end);
            }
        }
        flow_end(rest, flow, limit)
    }

    // Where the next round is worked out after a jump: at the sum of the last one, or at the best bound that a flow gives.
    // A call of its own, so that the rounds between two jumps keep what they work with in registers.
    #[inline(never)]
    pub fn jumped(&self, ends: &[u64; 16], shares: &[u64; 16], sum: u64, limit: u64) -> u64
        requires { let level = self.now in RoundAt level.start level.loads.now level.gaps.now level.count ends.now × Shares level.loads.now level.gaps.now level.count shares.now × Jump level.start level.loads.now level.gaps.now level.count limit sum }
        ensures { let level = self.now in Jump level.start level.loads.now level.gaps.now level.count limit result × (sum ≤ result) }
    {
        let mut far = sum;
        // No `for`: it ends where a bound gains nothing.
        loop {
            let next = self.flow_bound(ends, shares, far, limit);
            if next <= far {
                return far;
            }
            far = next;
        }
    }

    // Where the first rounds below a limit come to; most levels settle in them.
    pub fn few_rounds(&self, limit: u64) -> Reached
        requires { limit ≤ 1000000000 }
        ensures { let level = self.now in ReachedBy level.start level.loads.now level.gaps.now level.count limit result }
    {
        if limit <= self.start {
            return Reached::Settled(limit);
        }
        let mut ends = [0; 16];
        let mut shares = [0; 16];
        let mut d = self.start;
        let mut sum = self.round_at(d, &mut ends);
        let mut rounds = 0;
        // No `for`: rounds end by their sum and not by their number.
        while sum < limit {
            if sum <= d {
                return Reached::Settled(d);
            }
            if 256 <= rounds {
                return Reached::Open(d);
            }
            if rounds == 32 {
                self.fill_shares(&mut shares);
            }
            d = if jumps(rounds) {
                self.jumped(&ends, &shares, sum, limit)
            } else {
                sum
            };
            sum = self.next_reach(d, sum, &mut ends);
            rounds += 1;
        }
        Reached::Settled(limit)
    }
}
