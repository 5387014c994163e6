//! `fidrovelj`: masks netlists of one-bit gates, and checks that no wire leaks. The words and the streams are handed
//! on; the process ends with 0 where the work is done and the netlist clean, 1 at a leak, 2 where something is
//! refused, 3 where it is not decided.
#![tactic(auto)]

use std::env;
use std::process::ExitCode;

fn main(rt: HostRuntime) -> ExitCode {
    let words: Vec<String> = match env::args(&rt) {
        Ok(words) => match words.collect(rt.alloc()) {
            Ok(words) => words,
            Err(_) => return ExitCode::from(2),
        },
        Err(_) => return ExitCode::from(2),
    };
    let status = command_files::perform(&rt, words.as_slice(), &mut rt.stdout(), &mut rt.stderr());
    ExitCode::from(status)
}
