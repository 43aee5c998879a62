// How far a level reaches: a few plain rounds first, and where they do not settle, rounds between stretches that cannot have a fixed point.
#![tactic(auto)]

ghost use Rattle.std.specs.Prelude.{◌≡◌, true, ◌≤◌, ◌<◌, ◌^◌};
ghost use Rattle.rounds.specs.Level.{reach_in, OpenAt, ReachedBy};
ghost use Rattle.wheels.specs.Wheel.{BuiltOn};
ghost use Rattle.reach.specs.Far.{OpenOver};

use periods::{Block, Candidates, Plan};
use rounds::{Level, Reached};
use wheels::stretches::{Wheels, left_of};
use wheels::tables::{build, sift};

// Whether stretches of this size are passed too seldom to pay: a round costs as much as some twelve of them.
fn fails(block: Block, rounds: u64, passed: u64) -> bool
    requires { rounds ≤ 1000000000 }
    ensures { result ≡ true → 0 < block.shift }
{
    0 < block.shift && 1000 <= rounds && passed < rounds * 11 * block.stretch()
}

// Whether a jump is tried: where all stretches of the last turn were passed, and in each 64th round.
fn jumps(block: Block, rounds: u64, last: u64) -> bool {
    127 * block.stretch() <= last || rounds % 64 == 0
}

// Rounds from a place on, between stretches that are passed: settled, or given up where stretches of this size are passed too seldom.
fn rounds_between(level: &Level, wheels: &Wheels, limit: u64, from: u64) -> Reached
    requires { let its = level.now in let w = wheels.now in (limit ≤ 1000000000) × OpenAt its.start its.loads.now its.gaps.now its.count limit from × BuiltOn its.loads.now its.gaps.now w.plan.now.wheels its.count w.plan.now.periods (2 ^ w.block.shift) w.places.now w.table.now w.built }
    ensures { let its = level.now in ReachedBy its.start its.loads.now its.gaps.now its.count limit result × OpenOver wheels.now.block.shift result }
{
    let mut ends = [0; 16];
    let mut shares = [0; 16];
    level.fill_shares(&mut shares);
    let mut d = from;
    let mut sum = level.round_at(d, &mut ends);
    let mut rounds = 0;
    let mut passed = 0;
    let mut last = 0;
    // No `for`: rounds end by their sum and not by their number.
    while sum < limit {
        if sum <= d {
            return Reached::Settled(d);
        }
        if fails(wheels.block, rounds, passed) {
            return Reached::Open(d);
        }
        let far = if jumps(wheels.block, rounds, last) {
            level.jumped(&ends, &shares, sum, limit)
        } else {
            sum
        };
        let rest = left_of(level, &wheels.plan.wheels, wheels.built.count, &ends);
        d = wheels.pass(rest, far, limit);
        last = d - far;
        passed += last;
        sum = level.round_at(d, &mut ends);
        rounds += 1;
    }
    Reached::Settled(limit)
}

// Puts sources on wheels with blocks of a size, and makes rounds between their stretches.
fn attempt(level: &Level, limit: u64, from: u64, block: Block) -> Reached
    requires { let its = level.now in (limit ≤ 1000000000) × OpenAt its.start its.loads.now its.gaps.now its.count limit from }
    ensures { let its = level.now in ReachedBy its.start its.loads.now its.gaps.now its.count limit result × OpenOver block.shift result }
{
    let mut places = [0; 16];
    let mut table = [65535; 65536];
    let sources = Candidates {
        loads: level.loads,
        gaps: level.gaps,
        count: level.count,
    };
    let mut plan = Plan::new(&sources, block.ticks());
    sift(level, &mut plan);
    let built = build(level, &plan, block.ticks(), &mut places, &mut table);
    let wheels = Wheels {
        plan: &plan,
        block,
        places: &places,
        table: &table,
        built,
    };
    rounds_between(level, &wheels, limit, from)
}

// The load of a source that may be on a wheel.
fn light_load(load: u64, gap: u32) -> u64
    ensures { result ≤ 1000000 }
{
    if 1000000 < gap || u64::from(gap) < load {
        0
    } else {
        load
    }
}

// The bits of the first blocks: as long as the loads that may be on wheels, or up to twice that; 16 at most.
fn first_shift(level: &Level) -> u32
    ensures { result < 17 }
{
    let mut sum: u64 = 0;
    for u in 0..level.count {
        sum += light_load(level.loads[u], level.gaps[u]);
    }
    (u64::BITS - sum.leading_zeros()).min(16)
}

// Where the rounds come to, from a place on: stretches half as long, where they are passed too seldom.
fn far_reach(level: &Level, limit: u64, from: u64) -> u64
    requires { let its = level.now in (limit ≤ 1000000000) × OpenAt its.start its.loads.now its.gaps.now its.count limit from }
    ensures { let its = level.now in result ≡ reach_in its.start its.loads.now its.gaps.now its.count limit }
{
    let mut place = from;
    for shift in (1..=first_shift(level)).rev() {
        match attempt(level, limit, place, Block { shift }) {
            Reached::Settled(d) => return d,
            Reached::Open(next) => place = next,
        }
    }
    match attempt(level, limit, place, Block { shift: 0 }) {
        Reached::Settled(d) | Reached::Open(d) => d,
    }
}

// Where the rounds come to below a limit: the least d that one leaves unchanged, or else the limit.
pub fn level_reach(level: &Level, limit: u64) -> u64
    requires { limit ≤ 1000000000 }
    ensures { let its = level.now in result ≡ reach_in its.start its.loads.now its.gaps.now its.count limit }
{
    match level.few_rounds(limit) {
        Reached::Settled(d) => d,
        Reached::Open(place) => far_reach(level, limit, place),
    }
}
