// The columns of the load sheet that verdicts go by: the loads of sources at each task, and what the rounds of each task start from.
ghost use Rattle.std.specs.Prelude.{◌≡◌, ℕ, suc, ◌+◌, ◌≤◌, ◌<◌, [], get_or, length};
ghost use Rattle.model.specs.Basics.{top_n};
ghost use Rattle.works.specs.Works.{load_by};
ghost use Rattle.loads.specs.Tables.{Column, held};

use crate::Summands;
use crate::rows::part;

// The loads of c nodes from place `base` on, one task further down: the work w of task j + 1 comes in where a node brings it in.
fn bring_in(brings: &[u64; 48], base: usize, c: usize, j: usize, w: u64, loads: &mut [u64])
    requires { (base + c ≤ 48) × (c ≤ length loads.old) × (j < 32) × (w ≤ 42949672960000000) × ((k : ℕ) → k < c → get_or loads.old k 0 ≤ 1374389534720000000) }
    ensures { Column base brings.now j w c loads.old loads.new }
{
    for k in 0..c {
        loads[k] += part(brings[base + k], j, w);
    }
}

// The loads of m sources at each of n tasks but the `below` lowest, a row for a task; 0 past them.
pub fn levels_of(s: &Summands, m: usize, below: usize) -> [[u64; 16]; 32]
    requires { (m ≤ 16) × (below ≤ 32) }
    ensures { (j u : ℕ) → j < 32 → u < m → get_or (get_or result j []) u 0 ≡ load_by (get_or s.now.brings.now (32 + u) 0) s.now.works.now s.now.count (suc (below + j)) }
{
    let mut levels = [[0u64; 16]; 32];
    let mut loads = [0u64; 16];
    for j in (below..s.count).rev() {
        bring_in(s.brings, 32, m, j, s.works[j], &mut loads);
        levels[j - below] = loads;
    }
    levels
}

// The largest of some loads.
fn largest(loads: &[u64]) -> u64
    ensures { result ≡ top_n (λ k. get_or loads.now k 0) 0 (length loads.now) }
{
    let mut best: u64 = 0;
    for load in loads {
        best = best.max(*load);
    }
    best
}

// For each of n tasks the largest load that a lower task puts on it; 0 for the others.
pub fn starts_of(s: &Summands) -> [u64; 32]
    ensures { (j : ℕ) → j < 32 → get_or result j 0 ≡ top_n (λ k. load_by (get_or s.now.brings.now k 0) s.now.works.now s.now.count (suc j)) 0 j }
{
    let mut starts = [0u64; 32];
    let mut loads = [0u64; 32];
    for j in (0..s.count).rev() {
        bring_in(s.brings, 0, j, j, s.works[j], &mut loads);
        starts[j] = largest(&loads[..j]);
    }
    starts
}

// The longest that one of the first c tasks may hold the processor, with the load that it then puts on the tasks above.
fn longest_hold(runs: &[u32; 32], loads: &[u64; 32], c: usize) -> u64
    requires { (c ≤ 32) × ((k : ℕ) → k < c → get_or loads.now k 0 ≤ 1374389534720000000) }
    ensures { result ≡ top_n (held runs.now (λ k. get_or loads.now k 0)) 0 c }
{
    let mut best: u64 = 0;
    for k in 0..c {
        best = best.max(u64::from(runs[k]) + loads[k]);
    }
    best
}

// For each of n tasks the longest that a task up to it may hold the processor, with what that task's end puts on the tasks above; 0 for the others.
pub fn hold_starts_of(s: &Summands, runs: &[u32; 32]) -> [u64; 32]
    requires { (k : ℕ) → k < s.now.count → get_or runs.now k 0 ≤ 10000000 }
    ensures { (j : ℕ) → j < s.now.count → get_or result j 0 ≡ top_n (held runs.now (λ k. load_by (get_or s.now.brings.now k 0) s.now.works.now s.now.count (suc (suc j)))) 0 (suc j) }
{
    let mut starts = [0u64; 32];
    let mut loads = [0u64; 32];
    for j in (0..s.count).rev() {
        starts[j] = longest_hold(runs, &loads, j + 1);
        bring_in(s.brings, 0, j + 1, j, s.works[j], &mut loads);
    }
    starts
}
