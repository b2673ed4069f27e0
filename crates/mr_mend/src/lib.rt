//! The rebuild of an image: what the recipes of a plan make of each stripe, and the whole file of it. The reads of a
//! script, the degraded read of one lost symbol, and the lines of the replies.
#![tactic(auto)]

mod asks;
mod copies;
mod degraded;
mod images;
pub mod laws;
mod limits;
mod menders;
mod mending;
mod readers;
mod rebuilds;
mod replies;
mod rooms;
mod scripts;
mod served;
mod serving;
mod stripes;
mod tasks;
mod workers;

pub use asks::{Ask, ScriptFault};
pub use copies::{copy_stripe, copy_survivors};
pub use degraded::near;
pub use images::{print_head, put_symbols};
pub use limits::{GATHERED, LINE_FRAME, REPLY_LIMIT, SCRIPT_LIMIT};
pub use menders::rebuild_one;
pub use mending::mend;
pub use readers::serve;
pub use rebuilds::Rebuild;
pub use replies::print_replies;
pub use rooms::Room;
pub use scripts::{next_ask, read_script};
pub use served::{How, Slot};
pub use serving::serve_asks;
pub use stripes::mend_stripe;
pub use workers::{Worker, WorkerRefused};
