//! Callers that read, write and mend the stripes of an image, each stripe under a lock of its own.
//!
//! The stripes are read once. Then the asks and the stripes are dealt out to callers, one for each thread. A caller makes its
//! asks upwards, and mends its stripes upwards, in whatever order the two come. In the end there is a history for each stripe,
//! with each ask of it once and one mend, and the stripe is what an object of one thread makes of that history. No call of a
//! caller takes memory.
#![tactic(auto)]

mod amend;
mod caller;
mod closed;
mod dealing;
mod making;
mod opening;

pub use amend::Amend;
pub use caller::{Caller, Done};
pub use closed::Closed;
pub use opening::{Job, Opened};
