//! Reads that may be served beside the menders.

mod failing;
mod gates;
mod rows;
