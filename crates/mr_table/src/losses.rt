ghost use Rattle.std.specs.Prelude.{◌≡◌, ◌++◌, ◌<◌, ◌≤◌, length, IfOk, OnOk};
ghost use Rattle.mr_table.specs.Losses.{losses, pairs, pairs_with, singles};

use mr_bits::{Mask, NoMemory};
use std::alloc::Global;

/// The devices that are lost in each job of a table, for so many devices: each device, upwards, and
/// then each pair, by its first device and then by its second. There are at most 8,256 of them.
pub fn losses_of(alloc: Global, devices: u32) -> Result<Vec<Mask>, NoMemory>
    requires { devices ≤ 128 }
    ensures losses { IfOk result (λ list. list.items ≡ losses devices) }
    ensures few { IfOk result (λ list. length list.items ≤ 8256) }
{
    let mut list = Vec::new(alloc);
    push_singles(devices, &mut list)?;
    push_pairs(devices, &mut list)?;
    Ok(list)
}

/// Pushes each device.
fn push_singles(devices: u32, list: &mut Vec<Mask>) -> Result<(), NoMemory>
    requires { devices ≤ 128 }
    ensures { OnOk result (list.new.items ≡ list.old.items ++ singles devices) }
{
    for device in 0..devices {
        list.push(Mask::of(1 << device))?;
    }
    Ok(())
}

/// Pushes each pair of devices.
fn push_pairs(devices: u32, list: &mut Vec<Mask>) -> Result<(), NoMemory>
    requires { devices ≤ 128 }
    ensures { OnOk result (list.new.items ≡ list.old.items ++ pairs devices) }
{
    for first in 0..devices {
        push_pairs_with(first, devices, list)?;
    }
    Ok(())
}

/// Pushes each pair of this device and a later one.
fn push_pairs_with(first: u32, devices: u32, list: &mut Vec<Mask>) -> Result<(), NoMemory>
    requires { (first < devices) × (devices ≤ 128) }
    ensures { OnOk result (list.new.items ≡ list.old.items ++ pairs_with devices first) }
{
    for second in first + 1..devices {
        list.push(Mask::of(1 << first | 1 << second))?;
    }
    Ok(())
}
