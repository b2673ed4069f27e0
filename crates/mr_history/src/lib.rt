//! One stripe of an image as an object of one thread, with the history of the calls that were made on it: what each call
//! does to the stripe, and what a history makes of it.
#![tactic(auto)]

mod entry;
mod kept;
pub mod laws;
mod server;
mod terms;
#[cfg(test)]
mod tests;

pub use entry::Entry;
pub use kept::KeptStripe;
pub use server::Server;
pub use terms::Terms;
