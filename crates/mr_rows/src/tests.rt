//! The tests, a file for each part, and what they share.

mod checks;
mod drills;
mod failing;
mod faults;
mod long_files;
mod makers;
mod plans;
mod prices;
mod rows;
mod words;
