// The quote: the highest tempo at which every critical link is held, level by level, by halves where a level is in doubt.
// It goes by the verdicts' door and the search above it alone: tables worked out once, whether a level is held at given spacings, and the law that a
// level that is held stays held when spacings grow.
#![tactic(auto)]

ghost use Rattle.std.specs.Prelude.{◌≡◌};
ghost use Rattle.model.specs.Verdicts.{quote_of, quoted_file};
ghost use Rattle.quotes.specs.Best.{Tabled, QuoteBy};

use model::{Description, Policy, Refusal, Rejection};
use spacings::gaps_by;
use tempo_search::slower;
use verdicts::level::level_held;
use verdicts::{Tables, tables_of};

// The quote of a judged description, from its tables. The best tempo so far falls only at a level that is in doubt there; a task without a
// critical link from a source has none to ask.
pub fn quote_by(t: &Tables) -> Result<u32, Rejection>
    requires { Tabled t.now }
    ensures { QuoteBy t.now result }
{
    if !t.ordered {
        return Err(Refusal::NoTempo.at(0));
    }
    let mut best: u32 = 3000;
    let mut gaps = gaps_by(&t.sources, 3000);
    for j in 0..t.tasks {
        let level = t.level(j);
        if level.critical == 0 {
            continue;
        }
        if level_held(&level, &gaps, t.sources.count) {
            continue;
        }
        let Some(slow) = slower(&level, &t.sources, best) else {
            return Err(Refusal::NoTempo.at(0));
        };
        best = slow;
        gaps = gaps_by(&t.sources, best);
    }
    Ok(best)
}

// The quote of a description.
pub fn quote(p: Policy, d: Description) -> Result<u32, Rejection>
    ensures { result ≡ quote_of p d }
{
    let judged = files::examine_record(d)?;
    quote_by(&tables_of(p, d, &judged.worked.brings, &judged.worked.works))
}

// The quote of a file.
pub fn quote_file(p: Policy, file: &[u8]) -> Result<u32, Rejection>
    ensures { result ≡ quoted_file p file.now }
{
    let judged = files::examine(file)?;
    quote_by(&tables_of(
        p,
        judged.description,
        &judged.worked.brings,
        &judged.worked.works,
    ))
}
