//! The program `mpygrade`: the words of its command line, the real files and the standard output.
#![tactic(auto)]

use grade_io::{HostShelf, HostSink, Status, exit_of, words_from};
use grade_top::grade_top;
use std::env;
use std::process::ExitCode;

fn main(rt: HostRuntime) -> ExitCode {
    let status = match words_from(rt.alloc(), env::args(&rt)) {
        Ok(words) => {
            let mut shelf = HostShelf::new(&rt);
            let mut out = HostSink::new(&rt);
            grade_top(rt.alloc(), &words, &mut shelf, &mut out)
        }
        Err(_) => Status::NoMemory,
    };
    exit_of(status)
}
