ghost use Rattle.std.specs.Prelude.{◌≡◌, ℕ, ◌<◌, ◌≤◌, ◌++◌, ◌∷◌, slice_index, slice_range, [], List, length, filter, IfOk, IfSome, IfNone, OnOk, OnErr};
ghost use Rattle.std.specs.List.{All, Contains};
ghost use Rattle.std.proofs.Props.{props};
ghost use Rattle.mr_front.specs.Waiting.{mask_cost};
ghost use Rattle.mr_front.specs.Lists.{masks_at, key_cmp, HasAdded, HasSame, EndsWith, IsTidy, IsFirstList, IsWithout};

use mr_bits::{Mask, NoMemory};
use mr_eq::Problem;
use std::alloc::Global;
use std::collections::BTreeMap;

/// Lists of masks, by cost and level. No list is empty, and each has masks of its cost alone.
#[derive(Drop)]
pub(crate) struct Waiting {
    lists: BTreeMap<(u32, u8), Vec<Mask>>,
    problem: Problem,
    alloc: Global,
    pub ghost tidy: { IsTidy problem lists } by { Prim.hlevel props },
}

impl Waiting {
    /// No list, for the prices of a problem.
    pub(crate) fn new(alloc: Global, problem: &Problem) -> Waiting
        ensures loss { result.problem ≡ problem.now }
        ensures none { (q : ℕ × ℕ) → masks_at result.lists q ≡ [] }
    {
        Waiting {
            lists: BTreeMap::new(alloc),
            problem: problem.copy(),
            alloc,
        }
    }

    /// Takes the list of the least cost and, for that cost, the least level.
    pub(crate) fn take_first(&mut self) -> Option<((u32, u8), Vec<Mask>)>
        ensures loss { self.new.problem ≡ self.old.problem }
        ensures nothing { IfNone result ((q : ℕ × ℕ) → masks_at self.old.lists q ≡ []) }
        ensures left { IfNone result ((q : ℕ × ℕ) → masks_at self.new.lists q ≡ []) }
        ensures first { IfSome result (λ p. IsFirstList self.old.lists p.0 p.1.items) }
        ensures rest { IfSome result (λ p. IsWithout self.old.lists self.new.lists p.0) }
    {
        self.lists.pop_first()
    }

    /// Appends masks of a level, each to the list of its cost. After `NoMemory` the lists are as before.
    pub(crate) fn add(&mut self, level: u8, masks: &[Mask]) -> Result<(), NoMemory>
        ensures loss { self.new.problem ≡ self.old.problem }
        ensures added { OnOk result (HasAdded self.old.problem self.old.lists self.new.lists level masks.now) }
        ensures same { OnErr result (HasSame self.old.lists self.new.lists) }
    {
        let mut start = 0;
        while start < masks.len() {
            let end = run_end(&self.problem, masks, start);
            if let Err(refused) = self.append(level, &masks[start..end]) {
                self.take_back(level, &masks[..start]);
                return Err(refused);
            }
            start = end;
        }
        Ok(())
    }

    /// Appends masks of one cost and level to their list. After `NoMemory` the lists are as before.
    fn append(&mut self, level: u8, masks: &[Mask]) -> Result<(), NoMemory>
        requires some { 0 < length masks.now }
        requires same_cost { All (λ u. mask_cost self.old.problem u ≡ mask_cost self.old.problem (slice_index masks.now 0)) masks.now }
        ensures loss { self.new.problem ≡ self.old.problem }
        ensures added { OnOk result (HasAdded self.old.problem self.old.lists self.new.lists level masks.now) }
        ensures same { OnErr result (HasSame self.old.lists self.new.lists) }
    {
        let key = (self.problem.cost(masks[0]), level);
        if let Some(list) = self.lists.get_mut(&key) {
            list.extend_from_slice(masks)?;
            return Ok(());
        }
        let mut list = Vec::new(self.alloc);
        list.extend_from_slice(masks)?;
        self.lists.insert(key, list)?;
        Ok(())
    }

    /// Takes away masks of a level that were appended last.
    fn take_back(&mut self, level: u8, masks: &[Mask])
        requires { EndsWith self.old.problem self.old.lists level masks.now }
        ensures loss { self.new.problem ≡ self.old.problem }
        ensures added { HasAdded self.old.problem self.new.lists self.old.lists level masks.now }
    {
        let mut left = masks.len();
        while left > 0 {
            left -= 1;
            self.take_last(level, masks[left]);
        }
    }

    /// Takes away a mask of a level that was appended last to its list.
    fn take_last(&mut self, level: u8, mask: Mask)
        requires { EndsWith self.old.problem self.old.lists level (mask ∷ []) }
        ensures loss { self.new.problem ≡ self.old.problem }
        ensures added { HasAdded self.old.problem self.new.lists self.old.lists level (mask ∷ []) }
    {
        let key = (self.problem.cost(mask), level);
        let Some(list) = self.lists.get_mut(&key) else {
            return;
        };
        list.pop();
        if list.is_empty() {
            self.lists.remove(&key);
        }
    }
}

/// Where the masks end that stand from `start` on and cost as much as the one at `start`.
fn run_end(problem: &Problem, masks: &[Mask], start: usize) -> usize
    requires { start < length masks.now }
    ensures after { start < result }
    ensures within { result ≤ length masks.now }
    ensures same { All (λ u. mask_cost problem.now u ≡ mask_cost problem.now (slice_index masks.now start))
        (slice_range masks.now start result) }
{
    let cost = problem.cost(masks[start]);
    let mut end = start + 1;
    while end < masks.len() && problem.cost(masks[end]) == cost {
        end += 1;
    }
    end
}
