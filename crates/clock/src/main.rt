// The list of the MIDI clock's spacings goes to standard output. Nothing is read. Where a write fails, a line on standard error says so.
#![tactic(auto)]

use std::io;
use streams::write_output;

fn main(rt: HostRuntime) -> io::Result<()> {
    let mut page = [0u8; clock_list::LENGTH];
    clock_list::put_list(&mut page);
    match write_output(&mut rt.stdout(), &page) {
        Err(e) => eprintln!(rt; "clock: write: {e}"),
        Ok(_) => Ok(()),
    }
}
