ghost use Rattle.std.specs.Prelude.{◌≡◌, ℕ, ◌+◌, ◌*◌, ◌/◌, ◌%◌, ◌<◌, ◌≤◌, length, map, slice_index_or, All, IfOk};
ghost use Rattle.std.specs.List.{range_with_len};
ghost use Rattle.mr_model.specs.Code.{Code};
ghost use Rattle.mr_image.specs.Images.{stripe_symbols};
ghost use Rattle.mr_scrub.specs.Scans.{ScansStripes, fault_of, faults_in};

use crate::checks::Checks;
use crate::faults::first_fault;
use crate::scrubs::Scanner;
use mr_bits::NoMemory;
use mr_image::ImageHead;
use mr_kern::XorKernel;
use rayon::prelude::*;
use std::alloc::Global;
use std::thread::Threads;

/// How many bytes of an XOR are made at a time.
const WINDOW: usize = 1024;

/// The first fault of each of these stripes, in order, found in as many threads as there are processors.
///
/// `stripes` is the bytes of whole stripes, and `first` is the number of the first of them. The stripe with number
/// `s` is checked by the checks at place `s` modulo their number: one for all stripes, or one for each rotation.
pub fn scan<T: Threads + Sync>(
    rt: &T,
    alloc: Global,
    checks: &[Checks],
    kernel: &XorKernel,
    stripes: &[u8],
    head: &ImageHead,
    first: u32,
) -> Result<Vec<Option<u32>>, NoMemory>
    requires some { 0 < length checks.now }
    requires shape { All (λ (m : Code). length m.rows ≡ stripe_symbols head.now) checks.now }
    ensures faults { IfOk result (λ faults.
        faults.items ≡ faults_in checks.now head.now first stripes.now) }
{
    let count = stripes.len() / (head.symbols() as usize * head.bytes() as usize);
    let faults = (0..count)
        .into_par_iter()
        .map(
            |k: usize| -> Option<u32>
                requires { ScansStripes checks.now head.now stripes.now k }
                ensures { result ≡ fault_of checks.entry.now head.entry.now first
                    stripes.entry.now k }
            {
                fault_at(
                    &Scanner {
                        checks,
                        head,
                        kernel,
                    },
                    stripes,
                    first,
                    k,
                )
            },
        )
        .with_min_len(1)
        .collect(rt, alloc)?;
    Ok(faults)
}

/// The first fault of stripe `k` of these stripes, counted from 0.
fn fault_at(scanner: &Scanner, stripes: &[u8], first: u32, k: usize) -> Option<u32>
    requires { ScansStripes scanner.now.checks.now scanner.now.head.now stripes.now k }
    ensures { result ≡ fault_of scanner.now.checks.now scanner.now.head.now first stripes.now k }
{
    let Scanner {
        checks,
        head,
        kernel,
    } = *scanner;
    let size = head.symbols() as usize * head.bytes() as usize;
    let own = &checks[(first as usize + k) % checks.len()];
    let at = k * size;
    let mut tmp = [0; WINDOW];
    first_fault(own, kernel, &stripes[at..at + size], head.bytes(), &mut tmp)
}
