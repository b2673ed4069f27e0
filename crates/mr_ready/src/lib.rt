//! A rebuild that is made ready first: all its memory and all its eyes before anything is read, and then the reading,
//! the mending and the writing, which take no more.
#![tactic(auto)]

mod asking;
mod buffers;
mod carrying;
mod clearing;
mod crews;
mod desks;
mod faults;
mod gathering;
mod means;
mod mending;
mod orders;
mod placing;
mod printing;
mod reading;
mod ready;
mod replying;
mod writing;

pub use buffers::Buffers;
pub use carrying::{Carried, carry};
pub use faults::CarryFault;
pub use mending::{Mended, mend_image};
pub use mr_steps::ChoiceLine as Line;
pub use orders::Order;
pub use ready::Ready;
