// Loads as sums of works: one node's, a row of them, the sheet.
ghost use Rattle.std.specs.Prelude.{◌≡◌, ◌≤◌, ◌<◌, ◌^◌, sum};
ghost use Rattle.model.specs.Basics.{given};
ghost use Rattle.sets.specs.Sets.{member};
ghost use Rattle.loads.specs.Tables.{RowBy, SheetBy, heavy_by};

use crate::Summands;
use sets::has;

// What one task's work adds to a node's load.
pub fn part(row: u64, j: usize, w: u64) -> u64
    requires { j < 64 }
    ensures { result ≡ given (member row j) w }
{
    if has(row, j) { w } else { 0 }
}

// The loads of a node at each task: a running sum from the highest task down.
fn load_row(row: u64, s: &Summands) -> [u64; 32]
    ensures { RowBy row s.now.works.now s.now.count result }
{
    let mut loads = [0u64; 32];
    let mut sum: u64 = 0;
    for j in (0..s.count).rev() {
        sum += part(row, j, s.works[j]);
        loads[j] = sum;
    }
    loads
}

// The load sheet, row by row.
pub fn load_rows(s: &Summands) -> [[u64; 32]; 48]
    ensures { SheetBy s.now.brings.now s.now.works.now s.now.count result }
{
    let mut t = [[0u64; 32]; 48];
    for (i, row) in s.brings.iter().enumerate() {
        t[i] = load_row(*row, s);
    }
    t
}

// All of some works together.
fn sum_of(works: &[u64]) -> u64
    requires { sum works.now < 2 ^ 64 }
    ensures { result ≡ sum works.now }
{
    works.iter().sum()
}

// Whether some node's load at task 1 exceeds 1,000,000,000; none does if all works together do not.
pub fn heavy(s: &Summands) -> bool
    ensures { result ≡ heavy_by s.now.brings.now s.now.works.now s.now.count }
{
    let works = s.works;
    if sum_of(&works[..s.count]) <= 1_000_000_000 {
        return false;
    }
    let brings = s.brings;
    brings
        .iter()
        .any(|row| 1_000_000_000 < load_row(*row, s)[0])
}
