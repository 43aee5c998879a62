// What the programs do: the first 4,096 bytes of standard input are a description file, and its report on a model goes to standard output.
#![tactic(auto)]

use model::Policy;
use std::io;
use streams::{read_input, write_output};

// Where a read or a write fails, a line on standard error begins with the words for it, and after a failed read there is no report.
pub fn print_report(rt: &HostRuntime, p: Policy, unread: &str, unwritten: &str) -> io::Result<()> {
    let mut input = [0u8; 4096];
    match read_input(&mut rt.stdin(), &mut input) {
        Err(e) => eprintln!(rt; "{unread}: {e}"),
        Ok(n) => {
            let mut page = [0u8; report::LONGEST];
            let length = report::put_whole(p, &input[..n], &mut page);
            match write_output(&mut rt.stdout(), &page[..length]) {
                Err(e) => eprintln!(rt; "{unwritten}: {e}"),
                Ok(_) => Ok(()),
            }
        }
    }
}
