ghost use Rattle.std.specs.Prelude.{◌≡◌, ℕ, ◌<◌, ◌⊎◌, [], OnOk, IfSome, Some, None};
ghost use Rattle.std.specs.List.{Contains};
ghost use Rattle.mr_front.specs.CostLists.{list_in, HasOneMore, HasNoneAt, AtMost};

use mr_bits::{Mask, NoMemory};
use std::alloc::Global;
use std::collections::BTreeMap;
use std::ops::Bound;

/// Lists of masks by cost.
#[derive(Drop)]
pub(crate) struct CostLists {
    map: BTreeMap<u32, Vec<Mask>>,
    alloc: Global,
}

impl CostLists {
    /// No list.
    pub(crate) fn new(alloc: Global) -> CostLists
        ensures { (c : ℕ) → list_in result.map c ≡ [] }
    {
        CostLists {
            map: BTreeMap::new(alloc),
            alloc,
        }
    }

    /// Adds a mask to the list of a cost.
    pub(crate) fn add(&mut self, cost: u32, mask: Mask) -> Result<(), NoMemory>
        ensures { OnOk result (HasOneMore self.old.map self.new.map cost mask) }
    {
        if let Some(list) = self.map.get_mut(&cost) {
            list.push(mask)?;
            return Ok(());
        }
        let mut list = Vec::new(self.alloc);
        list.push(mask)?;
        self.map.insert(cost, list)?;
        Ok(())
    }

    /// Takes the list of a cost.
    pub(crate) fn take(&mut self, cost: u32) -> Vec<Mask>
        ensures taken { result.items ≡ list_in self.old.map cost }
        ensures rest { HasNoneAt self.old.map self.new.map cost }
    {
        match self.map.remove(&cost) {
            Some(list) => list,
            None => Vec::new(self.alloc),
        }
    }

    /// The list of a cost.
    pub(crate) fn at(&self, cost: u32) -> &[Mask]
        ensures { result.now ≡ list_in self.now.map cost }
    {
        match self.map.get(&cost) {
            Some(list) => list.as_slice(),
            None => &[],
        }
    }

    /// The least cost above this one that has a list.
    pub(crate) fn least_above(&self, above: u32) -> Option<u32>
        ensures least { (c u : ℕ) → Contains (list_in self.now.map c) u → above < c → AtMost result c }
        ensures above { IfSome result (λ k. above < k) }
    {
        match self
            .map
            .range((Bound::Excluded(above), Bound::Unbounded))
            .next()
        {
            Some((cost, _)) => Some(*cost),
            None => None,
        }
    }
}

/// The lesser of two costs, where there are two.
pub(crate) fn lesser(a: Option<u32>, b: Option<u32>) -> Option<u32>
    ensures first { (c : ℕ) → AtMost a c → AtMost result c }
    ensures second { (c : ℕ) → AtMost b c → AtMost result c }
    ensures one { (result ≡ a) ⊎ (result ≡ b) }
{
    match (a, b) {
        (Some(x), Some(y)) => Some(x.min(y)),
        (Some(x), None) => Some(x),
        (None, other) => other,
    }
}
