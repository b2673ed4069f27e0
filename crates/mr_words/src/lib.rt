//! The words of a command line, read by the crate `clap` exactly as the grammar of `specs/Grammar.antt` says.
//!
//! A command is a syntax (its places, its options with a value and its flags), the command of `clap` that
//! `command_for` makes of the same names, and a reader of the values that the matches of `parse` have. The
//! functions of `values` read one value each. `read_plan`, `read_check`, `read_make`, `read_encode`,
//! `read_rebuild`, `read_drill` and `read_sectors_words` are seven commands, read so; `read_image_words` reads two that
//! take the same words.
#![tactic(auto)]

mod check_words;
mod code;
mod command;
mod drill_words;
mod encode_words;
mod errors;
mod image_words;
mod limits;
mod lost;
mod make_words;
mod plan_words;
mod rebuild_words;
mod sectors_words;
pub mod values;

pub use check_words::{CheckWords, read_check};
pub use code::Code;
pub use command::{command_for, flag, parse, place, valued};
pub use drill_words::{DrillWords, read_drill};
pub use encode_words::{EncodeWords, read_encode};
pub use errors::WordsError;
pub use image_words::{ImageWords, read_image_words};
pub use limits::{BUDGET_LIMIT, DEFAULT_BUDGET, DEFAULT_WORKERS, WORKER_LIMIT};
pub use lost::{is_lost, lost_devices};
pub use make_words::{MakeWords, read_make};
pub use plan_words::{PlanWords, read_plan};
pub use rebuild_words::{RebuildWords, read_rebuild};
pub use sectors_words::{SectorsWords, read_sectors_words};
