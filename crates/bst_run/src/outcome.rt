//! What a command answers.

use bv_base::status::Status;
use bv_base::text::Text;

/// What a command answers: its status, its text for standard output, and its text for standard error.
#[derive(Drop)]
pub struct Outcome {
    pub status: Status,
    pub out: Text,
    pub err: Text,
}
