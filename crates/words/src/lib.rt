// The machine's marks as words of bits, and what is read off the tables beside them.
#![tactic(auto)]

ghost use Rattle.std.specs.Prelude.{◌≡◌, cond};
ghost use Rattle.words.specs.Words.{holds_on};

use model::Policy;
use sets::wide::Wide;

// A task reads its inputs when its run begins, so an event is fresh until then and taken from then on. Bit k of woken is task k if it was woken since
// its run began, or at all if none is in progress; bit k of part is task k if its run is part done. Bit l of fresh is the link at place l if its last
// event was not read yet; of taken, if the run in progress has read one; a link that is both is dropped, and marked so in dropped by the end of that
// run. running is the task that goes on: on the hold-on model the one that is part done, else 0. tick counts the ticks, from 2^32 on. Ages are not kept:
// beside the words goes, for each source, the tick at which its age was 0, be it before the first. So do kept tempos, as they were at the last
// arrival: none is below low, but 0, and peak is the fastest tempo given since, or 200.
#[derive(Clone, Copy)]
pub struct Words {
    pub woken: u64,
    pub part: u64,
    pub running: usize,
    pub fresh: Wide,
    pub taken: Wide,
    pub dropped: Wide,
    pub tick: u64,
    pub low: u32,
    pub peak: u32,
}

// What is kept of the number of a task whose run is not over: all of its bits on the hold-on model, else none.
pub fn kept_bits(p: Policy) -> usize
    ensures { result ≡ cond (holds_on p) 63 0 }
{
    match p {
        Policy::Preemptive => 0,
        Policy::HoldOn => 63,
    }
}
