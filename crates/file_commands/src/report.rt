//! What is written and kept of a command that nothing stops.

use grade_io::Status;

/// The text that is written, the status where it is written whole, and the bytes that are kept
/// under the command's word, if there are any.
#[derive(Drop)]
pub struct Report {
    pub status: Status,
    pub text: Vec<u8>,
    pub kept: Option<Vec<u8>>,
}
