// The links of a description as a set of tasks for each node, and the cycle test: a task that brings itself in, along a path through higher
// tasks alone. Tasks are let in from the highest down.
#![tactic(auto)]

ghost use Rattle.std.specs.Prelude.{◌≡◌, ◌≤◌, ◌<◌, length};
ghost use Rattle.theory.proofs.WellFormed.{Fielded};
ghost use Rattle.paths.specs.Rows.{SuccessorsOf, Grown, Allowed, Closed, self_in};

use model::Description;
use sets::{Set, below, has, with};

// The links of a description by the node they leave: bit j - 1 of entry i - 1 for a link from node i to task j.
pub fn successors(d: Description) -> [u64; 48]
    requires { Fielded d }
    ensures { SuccessorsOf d result }
{
    let mut succ = [0u64; 48];
    for link in &d.links[..d.link_count] {
        let from = usize::from(link.from) - 1;
        let to = usize::from(link.to) - 1;
        succ[from] = with(succ[from], to);
    }
    succ
}

// A task's set once paths may pass task v + 1, which brings in `low` below itself.
fn grown(row: u64, low: u64, v: usize) -> u64
    requires { v < 64 }
    ensures { Grown row low v result }
{
    if has(row, v) { row.union(low) } else { row }
}

// The same for each of n tasks.
fn allow(rows: &mut [u64; 48], low: u64, v: usize, n: usize)
    requires { (v < 64) × (n ≤ 32) × (length rows.old ≡ 48) }
    ensures { Allowed low v n rows.old rows.new }
{
    for row in &mut rows[..n] {
        *row = grown(*row, low, v);
    }
}

// For each of n tasks the tasks it brings in.
pub fn closed(succ: [u64; 48], n: usize) -> [u64; 48]
    requires { n ≤ 32 }
    ensures { Closed succ n result }
{
    let mut rows = succ;
    for v in (0..n).rev() {
        let low = below(rows[v], v);
        allow(&mut rows, low, v, n);
    }
    rows
}

// Whether a task brings itself in.
pub fn brings_itself(rows: &[u64; 48], n: usize) -> bool
    requires { n ≤ 32 }
    ensures { result ≡ self_in rows.now n }
{
    (0..n).any(|i| has(rows[i], i))
}
