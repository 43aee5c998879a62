// The tables of the wheels: for each block of a period, the least that a wheel's sources waste in eight blocks from there on.

ghost use Rattle.std.specs.Prelude.{◌≡◌, cond, ◌+◌, ◌*◌, ◌/◌, ◌≤◌, ◌<◌, IfSome, eqb, get_or};
ghost use Rattle.rounds.specs.Level.{LevelOn};
ghost use Rattle.wheels.specs.Wheel.{Kept, Sifted, PartOf, Light, part_flow, WasteOf, Filled, Lowered, PutWheel, BuiltOn};

use periods::Plan;
use rounds::Level;

// How many wheels have a table, and what their flow leaves of each tick, in parts of 2^33, rounded up.
#[derive(Clone, Copy)]
pub struct Built {
    pub count: usize,
    pub slope: u64,
}

// The entries of one wheel in the table: so many from a place on, each for a block of so many ticks. The table is lent
// whole and not in slices, since `Filled` and `Lowered` speak of all of it.
#[derive(Clone, Copy)]
pub struct Row {
    pub place: usize,
    pub entries: usize,
    pub block: u64,
    pub ghost some: { 1 ≤ block },
    pub ghost short: { entries * block ≤ 8388608 },
    pub ghost inside: { place + entries ≤ 65536 },
}

// The period of a wheel; 1 where there is none.
fn period_of(periods: &[u64; 16], wheel: usize) -> u64
    ensures { wheel < 16 → result ≡ get_or periods.now wheel 0 }
{
    periods.get(wheel).copied().unwrap_or(1)
}

// A source's wheel, or none if it may not be on it.
fn kept(wheel: usize, count: usize, load: u64, gap: u32, period: u64) -> usize
    requires { 1 ≤ gap }
    ensures { result < count → (result ≡ wheel) × Kept load gap period }
{
    let spacing = u64::from(gap);
    if period % spacing != 0 {
        return count;
    }
    if spacing < load {
        return count;
    }
    if 2097151 < load {
        return count;
    }
    wheel
}

// Takes the sources off a wheel that may not be on it.
pub fn sift(level: &Level, plan: &mut Plan)
    ensures { let its = level.now in Sifted its.loads.now its.gaps.now plan.new.wheels plan.new.periods its.count plan.new.count × (plan.new.periods ≡ plan.old.periods) × (plan.new.count ≡ plan.old.count) }
{
    for u in 0..level.count {
        let wheel = plan.wheels[u];
        let period = period_of(&plan.periods, wheel);
        plan.wheels[u] = kept(wheel, plan.count, level.loads[u], level.gaps[u], period);
    }
}

// A source's load, if it is on the wheel.
fn on_wheel(load: u64, wheel: usize, k: usize) -> u64
    ensures { result ≡ cond (eqb wheel k) load 0 }
{
    if wheel == k { load } else { 0 }
}

// The loads of the sources of wheel k, and their flow.
fn part_of(level: &Level, plan: &Plan, k: usize, part: &mut [u64; 16]) -> u64
    requires { let its = level.now in Sifted its.loads.now its.gaps.now plan.now.wheels plan.now.periods its.count plan.now.count × (k < plan.now.count) }
    ensures { let its = level.now in PartOf its.loads.now plan.now.wheels its.count k part.new × (result ≡ part_flow its.loads.now its.gaps.now plan.now.wheels its.count k) × (result ≤ 70368744177664) }
{
    let mut flow = 0;
    for u in 0..level.count {
        let load = on_wheel(level.loads[u], plan.wheels[u], k);
        part[u] = load;
        flow += load * 4398046511104 / u64::from(level.gaps[u]);
    }
    flow
}

// What a flow up to a place leaves of what is brought, in parts of 2^8; 0 where it is nothing, or beyond the scale.
fn waste(brought: u64, flow: u64, place: u64) -> u16
    ensures { WasteOf brought flow place result }
{
    if 2097151 < brought || 4398046511104 < flow || 2097152 < place {
        return 0;
    }
    let whole = brought * 4398046511104;
    let left = whole.saturating_sub(flow * place) / 17179869184;
    left.min(65535) as u16
}

// How far from a place on, and to an end at most, no source fires anew.
fn quiet_end(ends: &[u64; 16], n: usize, place: u64, end: u64) -> u64
    requires { (n ≤ 16) × (place < end) }
    ensures { (place < result) × (result ≤ end) }
{
    let mut near = end;
    for other in &ends[..n] {
        if place < *other {
            near = near.min(*other);
        }
    }
    near
}

// Fills the entries of a wheel: for each block, the least waste of its sources there. A place is passed to where a source
// fires anew, and by a 32nd of a block at least, so that a very narrow spacing does not make the places many.
fn fill(part: &Level, flow: u64, row: Row, table: &mut [u16; 65536])
    requires { let its = part.now in (its.start ≡ 0) × Light its.loads.now its.gaps.now its.count }
    ensures { let its = part.now in Filled its.loads.now its.gaps.now its.count flow row.block row.entries row.place table.old table.new }
{
    let mut ends = [0; 16];
    let mut sum = part.round_at(0, &mut ends);
    let all = row.entries as u64 * row.block;
    let mut done = 0;
    // No `for`: a step is as long as no source fires anew.
    while done < all {
        sum = part.next_reach(done + 1, sum, &mut ends);
        let i = done / row.block;
        let last = (i + 1) * row.block;
        let quiet = quiet_end(&ends, part.count, done, last);
        let end = quiet.max(done + row.block / 32).min(last);
        let at = row.place + i as usize;
        table[at] = table[at].min(waste(sum, flow, end));
        done = end;
    }
}

// Lowers each entry of a wheel to the one that many places on.
fn spread(row: Row, many: usize, table: &mut [u16; 65536])
    requires { (1 ≤ many) × (many ≤ 8) }
    ensures { Lowered row.place row.entries many table.old table.new }
{
    for i in 0..row.entries.saturating_sub(many) {
        let at = row.place + i;
        table[at] = table[at].min(table[at + many]);
    }
}

// The entries of a wheel from a place on, where there is room for them.
fn row_at(period: u64, block: u64, place: usize) -> Option<Row>
    requires { (1 ≤ block) × (block ≤ 65536) × (place ≤ 65536) }
    ensures { IfSome result (λ row. (1 ≤ period) × (row.entries ≡ period / block + 8) × (row.block ≡ block) × (row.place ≡ place)) }
{
    if period == 0 || 4194304 < period {
        return None;
    }
    let entries = period / block + 8;
    if 65536 < place as u64 + entries {
        return None;
    }
    Some(Row {
        place,
        entries: entries as usize,
        block,
    })
}

// What a flow leaves of each tick, in parts of 2^33, rounded up.
fn slope_of(flow: u64) -> u64
    ensures { (4398046511104 ≤ flow + 512 * result) × (result ≤ 8589934592) }
{
    if 4398046511104 <= flow {
        return 0;
    }
    (4398046511104 - flow + 511) / 512
}

// Puts one wheel's table at its entries, for the loads of its sources: the waste in each block, then in two, in four, in eight.
fn put_wheel(level: &Level, part: &[u64; 16], flow: u64, row: Row, table: &mut [u16; 65536])
    requires { let its = level.now in LevelOn 0 part.now its.gaps.now its.count × Light part.now its.gaps.now its.count }
    ensures { PutWheel part.now level.now.gaps.now level.now.count flow row.block row.entries row.place table.old table.new }
{
    let part = Level {
        start: 0,
        loads: part,
        gaps: level.gaps,
        count: level.count,
    };
    fill(&part, flow, row, table);
    spread(row, 1, table);
    spread(row, 2, table);
    spread(row, 4, table);
}

// Builds the tables of the wheels, as many as there is room for.
pub fn build(
    level: &Level,
    plan: &Plan,
    block: u64,
    places: &mut [usize; 16],
    table: &mut [u16; 65536],
) -> Built
    requires { let its = level.now in Sifted its.loads.now its.gaps.now plan.now.wheels plan.now.periods its.count plan.now.count × (1 ≤ block) × (block ≤ 65536) }
    ensures { let its = level.now in BuiltOn its.loads.now its.gaps.now plan.now.wheels its.count plan.now.periods block places.new table.new result }
{
    let mut part = [0; 16];
    let mut place = 0;
    let mut flow = 0;
    for k in 0..plan.count {
        let Some(row) = row_at(plan.periods[k], block, place) else {
            return Built {
                count: k,
                slope: slope_of(flow),
            };
        };
        let share = part_of(level, plan, k, &mut part);
        put_wheel(level, &part, share, row, table);
        places[k] = place;
        place += row.entries;
        flow += share;
    }
    Built {
        count: plan.count,
        slope: slope_of(flow),
    }
}
