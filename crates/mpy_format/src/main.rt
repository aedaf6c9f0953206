//! The program `mpyformat`: prints programs in the standard layout.
#![tactic(auto)]

mod files;
mod formatting;
mod page;

use crate::files::format_files;
use grade_io::{HostShelf, HostSink, Status, exit_of, words_from};
use std::env;
use std::process::ExitCode;

fn main(rt: HostRuntime) -> ExitCode {
    let status = match words_from(rt.alloc(), env::args(&rt)) {
        Ok(files) => {
            let mut shelf = HostShelf::new(&rt);
            let mut out = HostSink::new(&rt);
            format_files(rt.alloc(), &files, &mut shelf, &mut out)
        }
        Err(_) => Status::NoMemory,
    };
    exit_of(status)
}
