// Which sources of a level go together on a wheel, and each wheel's period: a common multiple of their spacings.
#![tactic(auto)]

ghost use Rattle.std.specs.Prelude.{◌≡◌, ◌*◌, ◌/◌, ◌≤◌, ◌<◌, ◌^◌, IfSome};

// The blocks that a wheel's table goes by: 2^shift ticks each.
#[derive(Clone, Copy)]
pub struct Block {
    pub shift: u32,
    pub ghost small: { shift < 17 },
}

impl Block {
    // How many ticks a block has.
    pub fn ticks(self) -> u64
        ensures { (result ≡ 2 ^ self.shift) × (1 ≤ result) × (result ≤ 65536) }
    {
        1 << self.shift
    }

    // How long a stretch is: seven blocks.
    pub fn stretch(self) -> u64
        ensures { (result ≡ 7 * 2 ^ self.shift) × (result ≤ 458752) }
    {
        7 << self.shift
    }

    // The block that a place lies in.
    pub fn of(self, place: u64) -> u64
        ensures { result ≡ place / 2 ^ self.shift }
    {
        place >> self.shift
    }
}

// The wheel of each source, 16 for none; the period of each wheel; and how many wheels there are. A wheel is a number,
// since `Sifted` and `left_in` of the crate `wheels` ask which are below a count.
#[derive(Clone, Copy)]
pub struct Plan {
    pub wheels: [usize; 16],
    pub periods: [u64; 16],
    pub count: usize,
    pub ghost few: { count ≤ 16 },
}

// The sources that wheels are looked for among: the loads and spacings of the first few.
#[derive(Clone, Copy)]
pub struct Candidates<'a> {
    pub loads: &'a [u64; 16],
    pub gaps: &'a [u32; 16],
    pub count: usize,
    pub ghost few: { count ≤ 16 },
}

// The greatest common divisor of two numbers.
fn divisor(a: u64, b: u64) -> u64
    requires { 1 ≤ a }
    ensures { 1 ≤ result }
{
    let mut large = a;
    let mut small = b;
    // No `for`: it ends at a remainder of 0.
    while small != 0 {
        (large, small) = (small, large % small);
    }
    large
}

// The least common multiple of two numbers.
fn common(a: u64, b: u64) -> u64
    requires { (1 ≤ a) × (a ≤ 1048576) × (b ≤ 1048576) }
    ensures { result ≤ 1099511627776 }
{
    a / divisor(a, b) * b
}

// The period that a wheel has with a source besides. A source cannot join that is on a wheel, has no load or one above
// its spacing, or makes the period too long.
fn joined(load: u64, gap: u32, wheel: usize, period: u64, most: u64) -> Option<u64>
    requires { (period ≤ 1048576) × (most ≤ 1048576) }
    ensures { IfSome result (λ multiple. multiple ≤ most) }
{
    let spacing = u64::from(gap);
    if wheel != 16 || load == 0 || spacing < load || most < spacing {
        return None;
    }
    let multiple = common(spacing, period);
    if most < multiple {
        return None;
    }
    Some(multiple)
}

// The source to join a wheel next, and the period with it: the shorter, the better.
fn choice(
    sources: &Candidates,
    wheels: &[usize; 16],
    period: u64,
    most: u64,
) -> Option<(usize, u64)>
    requires { (period ≤ 1048576) × (most ≤ 1048576) }
    ensures { IfSome result (λ best. (best.0 < sources.now.count) × (best.1 ≤ most)) }
{
    let mut best: Option<(usize, u64)> = None;
    for u in 0..sources.count {
        let Some(multiple) = joined(sources.loads[u], sources.gaps[u], wheels[u], period, most)
        else {
            continue;
        };
        let better = match best {
            Some((_, least)) => multiple < least,
            None => true,
        };
        if better {
            best = Some((u, multiple));
        }
    }
    best
}

// One wheel: as long as a source can join it, the best one does. Its period, if that is more than 1.
fn fill(sources: &Candidates, k: usize, most: u64, wheels: &mut [usize; 16]) -> Option<u64>
    requires { most ≤ 1048576 }
    ensures { IfSome result (λ period. period ≤ most) }
{
    let mut period = 1;
    for _ in 0..sources.count {
        let Some((u, multiple)) = choice(sources, wheels, period, most) else {
            break;
        };
        period = multiple;
        wheels[u] = k;
    }
    if period <= 1 {
        return None;
    }
    Some(period)
}

impl Plan {
    // The wheels of some sources, one after the other as long as there is room. All periods together are at most 65536
    // blocks of so many ticks less 10 for each of 16 wheels, and at most 3000000 ticks; one is at most a third of that.
    pub fn new(sources: &Candidates, block: u64) -> Plan
        requires { block ≤ 65536 }
    {
        let mut wheels = [16; 16];
        let mut periods = [1; 16];
        let mut room = (65376 * block).min(3000000);
        let largest = room / 3;
        for k in 0..15 {
            let Some(period) = fill(sources, k, largest.min(room), &mut wheels) else {
                return Plan {
                    wheels,
                    periods,
                    count: k,
                };
            };
            periods[k] = period;
            room -= period;
        }
        Plan {
            wheels,
            periods,
            count: 15,
        }
    }
}
