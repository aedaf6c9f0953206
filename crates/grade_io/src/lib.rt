//! The devices that the programs read from and write to, how a text is written whole, the words of
//! a command line, and the statuses.
#![tactic(auto)]

mod calls;
mod counted;
mod devices;
mod files;
mod host;
mod laws;
mod mem;
mod plan;
mod status;
mod sure;
mod system;
mod text;
mod whole;
mod words;

pub use counted::{Counted, Fault};
pub use devices::{FetchError, NoMemory, PutError, Shelf, Sink, StoreError};
pub use host::{HostShelf, HostSink};
pub use laws::puts_are_one;
pub use mem::{MemShelf, MemSink};
pub use status::{Status, exit_of, status_number};
pub use sure::{SureShelf, SureSink};
pub use system::{Input, Output, Stall};
pub use text::{refusal_line, say, write_text};
pub use whole::{put_piece, read_whole, write_whole};
pub use words::words_from;
