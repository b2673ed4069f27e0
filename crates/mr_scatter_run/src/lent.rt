//! What a run is lent from outside.

use mr_devices::Devices;
use mr_io::{Files, Source};

/// What a run is lent from outside: the files, the image as a stream, and the device files.
#[derive(Drop)]
pub struct Lent<'f, 's, 'd, F: Files, S: Source, D: Devices> {
    /// The files, of which the matrix is one.
    pub files: &'f mut F,
    /// The image.
    pub source: &'s mut S,
    /// The device files, of which none is open.
    pub devices: &'d mut D,
}
