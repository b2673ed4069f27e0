ghost use Rattle.std.specs.Prelude.{◌≡◌, ℕ, ◌+◌, ◌*◌, ◌^◌, ◌<◌, ◌≤◌, List, [], ◌∷◌, ◌++◌, map, length, slice_index, bit_xor, IfOk, IfErr, OnOk};

use mr_bits::Mask;
use std::alloc::{AllocError, AllocFailed, Global};
use std::marker::Model;
use thiserror::Error;

/// Why there is no list of the subsets of sum zero.
#[derive(Clone, Copy, Debug, PartialEq, Eq, Error)]
pub enum NullsError {
    /// There are 2 to the power of `d`, more than were asked for.
    #[error("there are 2^{d} sets of sum zero, which are too many")]
    TooMany { d: u32 },
    /// The allocator refused.
    #[error("out of memory")]
    Memory,
}

impl From<AllocError> for NullsError {
    ghost use Rattle.std.specs.Prelude.{◌≡◌};
    ghost use Rattle.mr_null.specs.declared.nulls.NullsError.TheVariants.{Memory};

    ghost from_gives = { λ _ e. e ≡ Memory };

    fn from(_refused: AllocError) -> NullsError {
        NullsError::Memory
    }
}

impl<T: Drop> From<AllocFailed<T>> for NullsError {
    ghost use Rattle.std.specs.Prelude.{◌≡◌};
    ghost use Rattle.mr_null.specs.declared.nulls.NullsError.TheVariants.{Memory};

    ghost from_gives = { λ _ e. e ≡ Memory };

    fn from(_refused: AllocFailed<T>) -> NullsError {
        NullsError::Memory
    }
}

/// A list of sets of symbols whose rows add up to nothing, fewer than 2 to the power of 32.
#[derive(Drop)]
pub struct Nulls {
    masks: Vec<Mask>,
}

impl Model for Nulls {
    ghost use Rattle.std.specs.Prelude.{ℕ, ◌<◌, ◌^◌, List, length};

    ghost Value = { List ℕ };

    ghost view = { λ n. n.masks.items };

    ghost invariant = { λ n. length n.masks.items < 2 ^ 32 };
}

impl Nulls {
    /// The list of these sets.
    pub(crate) fn of(masks: Vec<Mask>) -> Nulls
        requires { length masks.items < 2 ^ 32 }
        ensures { result ≡ masks.items }
    {
        Nulls { masks }
    }

    /// How many sets there are.
    pub fn len(&self) -> u32
        ensures { result ≡ length self.now }
    {
        self.masks.len() as u32
    }

    /// Set `x` of the list.
    pub fn get(&self, x: u32) -> Mask
        requires { x < length self.now }
        ensures { result ≡ slice_index self.now x }
    {
        self.masks[x as usize]
    }
}

/// The list of the empty set alone.
pub(crate) fn only_empty(alloc: Global) -> Result<Vec<Mask>, AllocError>
    ensures { IfOk result (λ masks. masks.items ≡ 0 ∷ []) }
{
    let mut masks = Vec::new(alloc);
    masks.push(Mask::EMPTY)?;
    Ok(masks)
}

/// Appends the XOR of each set of the list with `generator`.
pub(crate) fn double(masks: &mut Vec<Mask>, generator: Mask) -> Result<(), AllocError>
    requires { length masks.old.items < 2 ^ 32 }
    ensures { OnOk result (masks.new.items ≡
        masks.old.items ++ map (λ v. bit_xor v generator) masks.old.items) }
{
    for index in 0..masks.len() {
        let turned = masks[index].xor(generator);
        masks.push(turned)?;
    }
    Ok(())
}
