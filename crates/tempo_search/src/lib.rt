// The search for a tempo: whether a level is held at one, and the highest below a doubtful one at which it is, by halves. Level and sources are lent.
// A part of a level, such as one link of it, is searched for as the level with that part of its critical set.
#![tactic(auto)]

ghost use Rattle.std.specs.Prelude.{◌≡◌, false, ℕ, ◌≤◌};
ghost use Rattle.model.specs.declared.Description.{Description};
ghost use Rattle.model.specs.declared.Policy.{Policy};
ghost use Rattle.model.specs.Delays.{spacing_of};
ghost use Rattle.spacings.specs.Gaps.{Room};
ghost use Rattle.verdicts.specs.Held.{level_held};
ghost use Rattle.verdicts.specs.Tables.{seen};
ghost use Rattle.tempo_search.specs.Search.{LevelFrom, Searched, Slower};

use spacings::{Sources, fill_gaps};
use verdicts::level::{Level, level_held};

// Whether every critical link from a source to a level's task is held at tempo t. One more tempo costs its spacings and the level's rounds, and
// copies nothing.
pub fn held_at(level: &Level, sources: &Sources, t: u32, gaps: &mut [u32; 16]) -> bool
    requires { Searched (seen level.now) sources.now × (200 ≤ t) × (t ≤ 3000) × Room gaps.old }
    ensures { ((p : Policy) (d : Description) (j : ℕ) → LevelFrom p d j (seen level.now) sources.now → result ≡ level_held p d (spacing_of d t) j) × Room gaps.new }
{
    fill_gaps(sources, t, gaps);
    level_held(level, gaps, sources.count)
}

// The highest tempo below a doubtful one at which a level is held, if there is one.
pub fn slower(level: &Level, sources: &Sources, doubtful: u32) -> Option<u32>
    requires { Searched (seen level.now) sources.now × (200 ≤ doubtful) × (doubtful ≤ 3000) }
    ensures { (p : Policy) (d : Description) (j : ℕ) → LevelFrom p d j (seen level.now) sources.now → level_held p d (spacing_of d doubtful) j ≡ false → Slower p d j doubtful result }
{
    let mut gaps = [0u32; 16];
    if !held_at(level, sources, 200, &mut gaps) {
        return None;
    }
    let mut low: u32 = 200;
    let mut high = doubtful;
    // A bisection over numbers: std's `partition_point` is one of slices.
    while 1 < high - low {
        let middle = low + (high - low) / 2;
        if held_at(level, sources, middle, &mut gaps) {
            low = middle;
        } else {
            high = middle;
        }
    }
    Some(low)
}
