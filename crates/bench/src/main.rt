// The bench for the preemptive model: the report of the description file on standard input goes to standard output.
#![tactic(auto)]

use model::Policy;
use std::io;

fn main(rt: HostRuntime) -> io::Result<()> {
    printing::print_report(&rt, Policy::Preemptive, "bench: read", "bench: write")
}
