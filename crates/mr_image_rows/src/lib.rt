//! Tests of `minread` for images: what the top call answers to `encode` and `rebuild`, over the forms of files and sinks in
//! memory. There is nothing here but tests, and each is a table of cases.
#![tactic(auto)]

#[cfg(test)]
mod tests;
