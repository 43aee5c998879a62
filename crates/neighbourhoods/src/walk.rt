// The backward walk from a task against the links.

ghost use Rattle.std.specs.Prelude.{◌≡◌, ◌≤◌, None};
ghost use Rattle.neighbourhoods.specs.Into.{into_system, unmet, VisitIs};
ghost use Rattle.model.specs.Order.{walk};

use model::Walk;
use sets::first;

// To x, and from there to each node with a link to x. It stops below j, and fails on a source or on a task met twice.
fn visit(into: &[u64; 32], j: usize, x: usize, w: Walk) -> Walk
    requires { (1 ≤ x) × (x ≤ 48) × (w.failed ≡ None) }
    ensures { VisitIs into.now j x w result × (unmet result.met ≤ unmet w.met) }
{
    if 32 < x || w.met[x - 1] {
        return Walk {
            failed: Some(x as u8),
            ..w
        };
    }
    let mut next = w;
    next.met[x - 1] = true;
    if x < j {
        return next;
    }
    // Bits from r on; there are 48 nodes. A `while`, since the walk may fail at any of them.
    let mut rest = into[x - 1] % 281474976710656;
    let mut r: usize = 0;
    while rest != 0 {
        let k = first(rest);
        r += k + 1;
        next = visit(into, j, r, next);
        if next.failed.is_some() {
            return next;
        }
        rest = rest >> k >> 1;
    }
    next
}

// The whole walk from task i for the link from i to j.
pub fn walk_back(into: &[u64; 32], i: usize, j: usize) -> Walk
    requires { (1 ≤ i) × (i ≤ 48) }
    ensures { result ≡ walk (into_system into.now) i j }
{
    let none = Walk {
        failed: None,
        met: [false; 32],
    };
    visit(into, j, i, none)
}
