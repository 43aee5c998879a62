// The spacings of a description's sources at a tempo: the one rule, the one table, and the test of the knob.
#![tactic(auto)]

ghost use Rattle.std.specs.Prelude.{◌≡◌, true, ◌≤◌, ◌<◌};
ghost use Rattle.model.specs.declared.Field.TheVariants.{OfSource};
ghost use Rattle.model.specs.Field.{on_scale};
ghost use Rattle.model.specs.Verdicts.{on_knob};
ghost use Rattle.theory.proofs.WellFormed.{WellFormed};
ghost use Rattle.spacings.specs.Sources.{paced_ticks, ticks_in, pulses_in, spacing_by, SourcesOf, Scaled};
ghost use Rattle.spacings.specs.Gaps.{Room, GapsBy, GapsOf};

use model::{Description, Source};

// A source in plain numbers. A paced one has pulses, and its spacing is its ticks divided by tempo and pulses; of a fixed one the
// pulses are 0, and its spacing is its ticks.
#[derive(Clone, Copy)]
pub struct Pace {
    pub ticks: u32,
    pub pulses: u32,
}

// The sources of a description in plain numbers: source 33 + u at place u.
#[derive(Clone, Copy)]
pub struct Sources {
    pub count: usize,
    pub paces: [Pace; 16],
}

// Whether a tempo is on the knob (11).
pub fn on_knob(t: u32) -> bool
    ensures { result ≡ on_knob t }
{
    200 <= t && t <= 3000
}

// The ticks of a paced source: the one rule for all of them, straight time counting as a swing of 50.
fn paced_ticks(swing: u8) -> u32
    requires { swing ≤ 100 }
    ensures { result ≡ paced_ticks swing }
{
    12000000 * (100 - u32::from(swing))
}

// A source's ticks.
fn ticks_in(source: Source) -> u32
    requires { on_scale (OfSource source) ≡ true }
    ensures { result ≡ ticks_in source }
{
    match source {
        Source::Fixed(m) => m,
        Source::Paced(_) => paced_ticks(50),
        Source::Swung(_, swing) => paced_ticks(swing),
    }
}

// A source's pulses.
fn pulses_in(source: Source) -> u32
    ensures { result ≡ pulses_in source }
{
    match source {
        Source::Fixed(_) => 0,
        Source::Paced(p) | Source::Swung(p, _) => u32::from(p),
    }
}

// The sources of a description in plain numbers, worked out once for all tempos.
pub fn sources_of(d: Description) -> Sources
    requires { WellFormed d }
    ensures { SourcesOf d result }
{
    let mut paces = [Pace {
        ticks: 0,
        pulses: 0,
    }; 16];
    for (u, slot) in d.sources[..d.source_count].iter().enumerate() {
        paces[u] = Pace {
            ticks: ticks_in(slot.source),
            pulses: pulses_in(slot.source),
        };
    }
    Sources {
        count: d.source_count,
        paces,
    }
}

// The spacing of a source at tempo t. A tempo is a plain number: searches halve and step it, and would have to make a value of its own type each time.
pub fn spacing_by(ticks: u32, pulses: u32, t: u32) -> u32
    requires { (pulses ≤ 960) × (200 ≤ t) × (t ≤ 3000) }
    ensures { result ≡ spacing_by ticks pulses t }
{
    if pulses == 0 {
        return ticks;
    }
    ticks / (t * pulses)
}

// Fills a lent table with the spacing of each source at tempo t.
pub fn fill_gaps(s: &Sources, t: u32, gaps: &mut [u32; 16])
    requires { Scaled s.now × (200 ≤ t) × (t ≤ 3000) × Room gaps.old }
    ensures { GapsBy s.now t gaps.new × Room gaps.new }
{
    for (u, pace) in s.paces[..s.count].iter().enumerate() {
        gaps[u] = spacing_by(pace.ticks, pace.pulses, t);
    }
}

// The same in a new table.
pub fn gaps_by(s: &Sources, t: u32) -> [u32; 16]
    requires { Scaled s.now × (200 ≤ t) × (t ≤ 3000) }
    ensures { GapsBy s.now t result }
{
    let mut gaps = [0u32; 16];
    fill_gaps(s, t, &mut gaps);
    gaps
}

// The same from a description.
pub fn gaps_of(d: Description, t: u32) -> [u32; 16]
    requires { WellFormed d × (200 ≤ t) × (t ≤ 3000) }
    ensures { GapsOf d t result }
{
    gaps_by(&sources_of(d), t)
}
