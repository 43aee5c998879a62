// For each task the set of nodes with a link to it.

ghost use Rattle.theory.proofs.WellFormed.{Fielded};
ghost use Rattle.neighbourhoods.specs.Into.{IntoOf};

use model::Description;
use sets::with;

// The nodes with a link to each task: node p is number p - 1 of the set. The loop is that of `paths::successors` by the other end; a closure for
// the two ends would say no less.
pub fn predecessors(d: Description) -> [u64; 32]
    requires { Fielded d }
    ensures { IntoOf d result }
{
    let mut into = [0u64; 32];
    for link in &d.links[..d.link_count] {
        let at = usize::from(link.to) - 1;
        into[at] = with(into[at], usize::from(link.from) - 1);
    }
    into
}
