// The links of a description as tables of sets: for each node the links out of it, the links into it and the tasks that it wakes.
#![tactic(auto)]

ghost use Rattle.std.specs.Prelude.{◌≡◌, ◌<◌, length};
ghost use Rattle.theory.proofs.WellFormed.{WellFormed};
ghost use Rattle.wiring.specs.Rows.{Wired, WiringOf};

use model::Description;
use sets::Set;
use sets::wide::Wide;

// The links out of a node, the links into it, and the tasks that it wakes.
#[derive(Clone, Copy)]
pub struct Row {
    pub out: Wide,
    pub into: Wide,
    pub wakes: u64,
}

// A row for each node, by its number. Beside them stand the tasks that links enter, longest runs and counts.
#[derive(Clone, Copy)]
pub struct Wiring {
    pub rows: [Row; 64],
    pub to: [u8; 256],
    pub links: usize,
    pub tasks: usize,
    pub runs: [u32; 32],
    pub sources: usize,
}

// The link at place l, from node x to task y, is entered in the rows.
fn wire(rows: &mut [Row; 64], l: usize, x: usize, y: usize)
    requires { (l < 256) × (x < 64) × (y < 64) × (length rows.old ≡ 64) }
    ensures { Wired rows.old l x y rows.new }
{
    rows[x].out = rows[x].out.with(l);
    rows[y].into = rows[y].into.with(l);
    rows[x].wakes = sets::with(rows[x].wakes, y);
}

// The wiring of an accepted description.
pub fn wiring_of(d: Description) -> Wiring
    requires { WellFormed d }
    ensures { WiringOf d result }
{
    let blank = Row {
        out: Wide::none(),
        into: Wide::none(),
        wakes: 0,
    };
    let mut rows = [blank; 64];
    let mut to = [0; 256];
    for (l, link) in d.links[..d.link_count].iter().enumerate() {
        wire(&mut rows, l, usize::from(link.from), usize::from(link.to));
        to[l] = link.to;
    }
    Wiring {
        rows,
        to,
        links: d.link_count,
        tasks: d.task_count,
        runs: d.runs,
        sources: d.source_count,
    }
}
