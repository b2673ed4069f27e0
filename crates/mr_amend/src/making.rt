//! What the callers begin with.

ghost use Rattle.std.specs.Prelude.{◌≡◌, ℕ, ◌^◌, ◌<◌, IfOk, length, slice_index, slice_index_or};
ghost use Rattle.std.specs.List.{range_with_len};
ghost use Rattle.mr_history.specs.Histories.{IsFresh, PartsFit, call_count, names_of};
ghost use Rattle.mr_history.specs.declared.kept.KeptStripe.{KeptStripe as AStripe};

use mr_history::{KeptStripe, Terms};
use std::alloc::{AllocError, Global};
use std::collections::VecDeque;

/// The numbers below the count.
pub(crate) fn numbers(alloc: Global, count: u32) -> Result<VecDeque<u32>, AllocError>
    ensures { IfOk result (λ all. all.items ≡ range_with_len 0 count) }
{
    let mut all = VecDeque::with_capacity(alloc, count as usize)?;
    for number in 0..count {
        all.push_back_reserved(number);
    }
    Ok(all)
}

/// How many calls there are of each stripe.
pub(crate) fn calls_of_each(alloc: Global, terms: &Terms) -> Result<Vec<usize>, AllocError>
    requires parts { PartsFit (names_of terms.now) }
    requires small { length terms.now.ops.items < 2 ^ 31 }
    ensures count { IfOk result (λ counts. length counts.items ≡ terms.now.head.stripes) }
    ensures each { IfOk result (λ counts. (t : ℕ) → t < terms.now.head.stripes
        → slice_index counts.items t ≡ call_count (names_of terms.now) t) }
{
    let mut counts = Vec::from_elem(alloc, 1usize, terms.head.stripes() as usize)?;
    for op in &terms.ops {
        counts[op.stripe() as usize] += 1;
    }
    Ok(counts)
}

/// The stripes of these bytes as they were read, each with memory for its calls.
pub(crate) fn kept_stripes(
    alloc: Global,
    terms: &Terms,
    mut bytes: VecDeque<Vec<u8>>,
    counts: &[usize],
) -> Result<Vec<KeptStripe>, AllocError>
    requires parts { PartsFit (names_of terms.now) }
    requires bytes { terms.now.image.value ≡ bytes }
    requires count { length counts.now ≡ terms.now.head.stripes }
    requires each { (t : ℕ) → t < terms.now.head.stripes
        → slice_index counts.now t ≡ call_count (names_of terms.now) t }
    ensures count { IfOk result (λ kept. length kept.items ≡ terms.now.head.stripes) }
    ensures each { IfOk result (λ kept. (t : ℕ) (d : AStripe) → t < terms.now.head.stripes
        → IsFresh (names_of terms.now) t (slice_index_or kept.items t d)) }
{
    let mut kept = Vec::with_capacity(alloc, counts.len())?;
    while let Some(stripe) = bytes.pop_front() {
        let calls = counts[kept.len()];
        kept.push_reserved(KeptStripe::of(alloc, stripe, calls)?);
    }
    Ok(kept)
}
