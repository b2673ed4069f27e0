//! Tests of `minread` for images of version 2, whose devices move on with each stripe: what the top call answers to
//! `convert`, and to `rebuild` and `scrub` of what it makes, over the forms of files and sinks in memory. There is nothing
//! here but tests, and each is a table of cases.
#![tactic(auto)]

#[cfg(test)]
mod tests;
