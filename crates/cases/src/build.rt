// Files that are too long to write out: tasks, fixed sources of the largest spacing, then critical links from each
// source to the tasks 10 to 25. All tasks run for one tick, but task 25 for 10,000,000.

ghost use Rattle.std.specs.Prelude.{◌<◌, ◌≤◌, length};

// The byte at place k of the file.
fn byte_at(tasks: usize, sources: usize, k: usize) -> u8
    requires { (tasks ≤ 33) × (sources ≤ 17) × (k < 2048) }
{
    let short = [1u8, 0, 4, 0, 0, 0, 1];
    let long = [1u8, 0, 4, 0, 0x98, 0x96, 0x80];
    let source = [2u8, 0, 4, 0x3b, 0x9a, 0xca, 0];
    if k < 7 * tasks {
        if k / 7 == 24 {
            return long[k % 7];
        }
        return short[k % 7];
    }
    let after = k - 7 * tasks;
    if after < 7 * sources {
        return source[after % 7];
    }
    let at = after - 7 * sources;
    let l = at / 6;
    match at % 6 {
        0 => 4,
        1 => 0,
        2 => 3,
        3 => (33 + l / 16) as u8,
        4 => (10 + l % 16) as u8,
        _ => 1,
    }
}

// The file at the front of a page, with links to the page's end.
pub fn fill(page: &mut [u8], tasks: usize, sources: usize)
    requires { (tasks ≤ 33) × (sources ≤ 17) × (length page.old ≤ 2048) }
{
    for k in 0..page.len() {
        page[k] = byte_at(tasks, sources, k);
    }
}
