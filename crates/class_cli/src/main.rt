//! The program `mpyclass`: the words of its command line, the real files and the standard output.
#![tactic(auto)]

use class_core::{ClassStatus, class_exit, class_top};
use grade_io::{HostShelf, HostSink, words_from};
use std::env;
use std::process::ExitCode;

fn main(rt: HostRuntime) -> ExitCode {
    let status = match words_from(rt.alloc(), env::args(&rt)) {
        Ok(words) => {
            let mut shelf = HostShelf::new(&rt);
            let mut out = HostSink::new(&rt);
            class_top(rt.alloc(), &words, &mut shelf, &mut out)
        }
        Err(_) => ClassStatus::NoMemory,
    };
    class_exit(status)
}
