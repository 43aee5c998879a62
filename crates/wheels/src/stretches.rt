// Stretches without a fixed point: as long as the wheels waste more than the level has to spare, the next eight blocks have none.

ghost use Rattle.std.specs.Prelude.{◌≡◌, ℕ, ◌+◌, ◌*◌, ◌/◌, ◌%◌, ◌^◌, ◌≤◌, ◌<◌, get_or};
ghost use Rattle.rounds.specs.Level.{RoundAt, Counted};
ghost use Rattle.wheels.specs.Wheel.{Placed, Turned, waste_on, left_in, Passes};

use crate::tables::Built;
use periods::{Block, Plan};
use rounds::{Level, brought};

// Wheels with their tables, of no level in particular: the plan, where the table of each wheel begins, and what is built of it.
#[derive(Clone, Copy)]
pub struct Wheels<'a> {
    pub plan: &'a Plan,
    pub block: Block,
    pub places: &'a [usize; 16],
    pub table: &'a [u16; 65536],
    pub built: Built,
    pub ghost placed: { Placed plan.now.periods places.now (2 ^ block.shift) built.count },
    pub ghost flat: { built.slope ≤ 8589934592 },
}

// What the start and the counted firings of all sources bring that are on none of the first few wheels.
pub fn left_of(level: &Level, wheels: &[usize; 16], count: usize, ends: &[u64; 16]) -> u64
    requires { let its = level.now in RoundAt its.start its.loads.now its.gaps.now its.count ends.now }
    ensures { let its = level.now in (p : ℕ) → Counted its.loads.now its.gaps.now its.count p ends.now → result ≡ left_in its.start its.loads.now its.gaps.now wheels.now its.count count p }
{
    let mut rest = level.start;
    for u in 0..level.count {
        if count <= wheels[u] {
            rest += brought(level.loads[u], level.gaps[u], ends[u]);
        }
    }
    rest
}

// Where a wheel stands some ticks on.
fn turned(turn: u64, width: u64, period: u64) -> u64
    requires { (1 ≤ period) × (turn ≤ 1000000000) × (width ≤ 1000000000) }
    ensures { result ≡ (turn + width) % period }
{
    let far = turn + width;
    if far < period {
        return far;
    }
    let rest = far - period;
    if rest < period {
        return rest;
    }
    far % period
}

impl Wheels<'_> {
    // Where each wheel stands at d.
    fn turn_to(&self, d: u64, turns: &mut [u64; 16])
        requires { 1 ≤ d }
        ensures { Turned self.now.plan.now.periods self.now.built.count d turns.new }
    {
        for k in 0..self.built.count {
            turns[k] = (d - 1) % self.plan.periods[k];
        }
    }

    // The least waste of all wheels together in the stretch from where they stand; then each is turned some ticks on.
    fn waste_passed(&self, width: u64, turns: &mut [u64; 16]) -> u64
        requires { let wheels = self.now in (width ≤ 1000000000) × ((k : ℕ) → k < wheels.built.count → get_or turns.old k 0 ≤ 1000000000) × ((k : ℕ) → k < wheels.built.count → get_or wheels.places.now k 0 + get_or turns.old k 0 / 2 ^ wheels.block.shift < 65536) }
        ensures { let wheels = self.now in (result ≡ waste_on (2 ^ wheels.block.shift) wheels.places.now wheels.table.now turns.old wheels.built.count) × (result ≤ 1048560) × ((d : ℕ) → 1 ≤ d → Turned wheels.plan.now.periods wheels.built.count d turns.old → Turned wheels.plan.now.periods wheels.built.count (d + width) turns.new) }
    {
        let mut sum = 0;
        for k in 0..self.built.count {
            let turn = turns[k];
            let at = self.places[k] + self.block.of(turn) as usize;
            sum += u64::from(self.table[at]);
            turns[k] = turned(turn, width, self.plan.periods[k]);
        }
        sum
    }

    // Goes on from a place, stretch by stretch, 128 at most, as long as no stretch can have a fixed point.
    pub fn pass(&self, rest: u64, from: u64, limit: u64) -> u64
        requires { (rest ≤ 1000000000) × (1 ≤ from) × (from ≤ limit) × (limit ≤ 1000000000) }
        ensures { let wheels = self.now in Passes wheels.plan.now.periods wheels.places.now wheels.table.now (2 ^ wheels.block.shift) wheels.built.count wheels.built.slope rest from result × (from ≤ result) × (result ≤ limit) }
    {
        let width = self.block.stretch();
        let mut turns = [0; 16];
        self.turn_to(from, &mut turns);
        let mut d = from;
        for _ in 0..128 {
            if limit < d + width {
                return d;
            }
            let waste = self.waste_passed(width, &mut turns);
            if rest * 8589934592 + waste * 33554432 <= self.built.slope * (d + width) {
                return d;
            }
            d += width;
        }
        d
    }
}
