//! What a run is given beside its words.

use crate::outside::Schedule;
use mr_io::Text;

/// What a run is given beside its words.
#[derive(Drop)]
pub struct Given {
    /// The files, by their names.
    pub files: Vec<(Text, Vec<u8>)>,
    /// What the script gives.
    pub script: Vec<u8>,
    /// Which calls of the outside fail.
    pub schedule: Schedule,
}
