//! A law of arrays on device files, as the contract of a function that does nothing else.
#![tactic(auto)]

ghost use Rattle.mr_array_laws.specs.Returns.{BringsBack};

use mr_image::ImageHead;

/// Where an image is gathered with all symbols of a device, what is scattered of that image to the device are the bytes that
/// it has at these places.
pub fn gathered_devices_come_back(head: &ImageHead)
    ensures { BringsBack head.now }
{
    let _within_the_limits = head.bytes();
}
