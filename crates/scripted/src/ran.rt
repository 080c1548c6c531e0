// What the run of a script leaves.
use rating::duty::SignDuty;
use std::alloc::AllocError;

// The text that is to be printed, and the duty that is still open.
pub struct Ran {
    pub text: Result<String, AllocError>,
    pub duty: Option<SignDuty>,
}
