//! The kernel beside a loop over bytes.

use crate::downwards::block_downwards;
use mr_kern::{XorKernel, block_lanes, block_plain};
use std::alloc::Global;
use std::process::Abort;
use std::test::Fail;

/// Lengths at the ends of blocks of 64 bytes, and one beside that of a symbol.
const LENGTHS: [usize; 9] = [0, 1, 8, 63, 64, 65, 127, 128, 4_103];

/// So many bytes, each of which depends on its place and on `turn`.
fn bytes(alloc: Global, length: usize, turn: u64) -> Result<Vec<u8>, Fail> {
    let mut list = Vec::with_capacity(alloc, length)?;
    for place in 0..length as u64 {
        let word = place.wrapping_mul(2_654_435_761).wrapping_add(turn);
        list.push(((word >> 7) % 256) as u8)?;
    }
    Ok(list)
}

/// Asserts that the kernel does what a loop does, for bytes of this length.
fn check_length(
    rt: &impl Abort,
    alloc: Global,
    kernel: &XorKernel,
    length: usize,
) -> Result<(), Fail> {
    let old = bytes(alloc, length, 1)?;
    let other = bytes(alloc, length, 987_654_321)?;
    let mut now = old.clone()?;
    assert!(rt; now.len() == length && old.len() == length && other.len() == length);
    kernel.xor_into(&mut now, &other);
    for place in 0..length {
        assert!(rt;
            now.get(place) == Some(&(old[place] ^ other[place])),
            "byte {place} of {length}"
        );
    }
    Ok(())
}

#[test]
fn lengths(rt: HostRuntime) -> Result<(), Fail> {
    let kernels = [
        XorKernel::new(block_plain),
        XorKernel::new(block_lanes),
        XorKernel::new(block_downwards),
    ];
    for kernel in &kernels {
        for length in LENGTHS {
            check_length(&rt, rt.alloc(), kernel, length)?;
        }
    }
    Ok(())
}
