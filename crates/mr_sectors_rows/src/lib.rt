//! Tests of `minread` for images of which symbols cannot be read: what the top call answers to `sectors`, over the forms of
//! files and sinks in memory. There is nothing here but tests.
#![tactic(auto)]

#[cfg(test)]
mod tests;
