ghost use Rattle.std.specs.Prelude.{◌≡◌, ◌≢◌, ℕ, ◌<◌, ◌≤◌, ◌⊎◌, ◌++◌, ◌==◌, filter, true, false, length, IfOk, IfSome, OnOk, bit_and, count_ones};
ghost use Rattle.std.specs.List.{Contains};
ghost use Rattle.mr_model.specs.Members.{members};
ghost use Rattle.mr_eq.specs.Problems.{Loss};
ghost use Rattle.mr_front.specs.Waiting.{mask_cost};
ghost use Rattle.mr_front.specs.Children.{unions_of, children_of};
ghost use Rattle.mr_front.specs.CostLists.{list_in, HasOneMore, HasNoneAt, AtMost};
ghost use Rattle.mr_front.specs.PutOff.{Has, IsPutOff, Holds};

use crate::cost_lists::{CostLists, lesser};
use mr_bits::{Mask, NoMemory};
use mr_eq::Equations;
use std::alloc::Global;

/// More than a set may cost.
const NO_COST: u32 = 131_072;

/// So many mean prices more than a layer a child may cost that is kept at once.
const PRICES_AHEAD: u64 = 4;

/// Masks of one level by their cost, and masks of the level below that are put off, by the least
/// cost of the children that are still to be made of them.
#[derive(Drop)]
pub(crate) struct Row {
    lists: CostLists,
    late: CostLists,
}

/// Which children of a mask are made: those that cost `from` to `most`. Those of them that cost at
/// most `reach` are kept at once.
#[derive(Drop)]
pub(crate) struct Span {
    pub from: u32,
    pub reach: u64,
    pub most: u64,
}

/// What became of a mask.
#[derive(Drop)]
pub struct Made {
    /// How many children it has that cost at most what was said.
    pub children: u32,
    /// The least that one of these costs, or what was said, where there is none.
    pub least: u64,
}

impl Row {
    /// No masks.
    pub(crate) fn new(alloc: Global) -> Row
        ensures lists { (p : Loss) (u : ℕ) → Has p result.lists.map u → ⊥ }
        ensures late { (c v : ℕ) → IsPutOff result.late.map c v → ⊥ }
    {
        Row {
            lists: CostLists::new(alloc),
            late: CostLists::new(alloc),
        }
    }

    /// Whether there is a mask of this cost.
    pub(crate) fn has(&self, equations: &Equations, cost: u32) -> bool
        ensures none { result ≡ false → (u : ℕ) → Has equations.now self.now.lists.map u
            → mask_cost equations.now u ≢ cost }
        ensures some { result ≡ true → (u : ℕ) × Has equations.now self.now.lists.map u
            × (mask_cost equations.now u ≡ cost) }
    {
        has_cost(self.lists.at(cost), equations, cost)
    }

    /// How many masks are put off to this cost.
    pub(crate) fn count_late(&self, cost: u32) -> usize {
        self.late.at(cost).len()
    }

    /// The least cost above this one at which a mask stands, or to which one is put off.
    pub(crate) fn least_above(&self, above: u32) -> Option<u32>
        ensures lists { (c u : ℕ) → Contains (list_in self.now.lists.map c) u → above < c
            → AtMost result c }
        ensures late { (c u : ℕ) → Contains (list_in self.now.late.map c) u → above < c
            → AtMost result c }
        ensures above { IfSome result (λ k. above < k) }
    {
        lesser(self.lists.least_above(above), self.late.least_above(above))
    }

    /// Adds a mask of this cost.
    pub(crate) fn put(&mut self, cost: u32, mask: Mask) -> Result<(), NoMemory>
        ensures lists { OnOk result (HasOneMore self.old.lists.map self.new.lists.map cost mask) }
        ensures late { self.new.late ≡ self.old.late }
    {
        self.lists.add(cost, mask)
    }

    /// Takes the masks of this cost.
    pub(crate) fn take(&mut self, cost: u32) -> Vec<Mask>
        ensures taken { result.items ≡ list_in self.old.lists.map cost }
        ensures rest { HasNoneAt self.old.lists.map self.new.lists.map cost }
        ensures late { self.new.late ≡ self.old.late }
    {
        self.lists.take(cost)
    }

    /// Puts a mask off to a cost, where it is one.
    fn put_off(&mut self, cost: u32, mask: Mask) -> Result<(), NoMemory>
        ensures late { OnOk result (cost < 131072
            → HasOneMore self.old.late.map self.new.late.map cost mask) }
        ensures same { OnOk result (131072 ≤ cost → self.new.late ≡ self.old.late) }
        ensures lists { self.new.lists ≡ self.old.lists }
    {
        if cost < NO_COST {
            self.late.add(cost, mask)?;
        }
        Ok(())
    }

    /// Takes the masks that are put off to this cost.
    fn take_late(&mut self, cost: u32) -> Vec<Mask>
        ensures taken { result.items ≡ list_in self.old.late.map cost }
        ensures rest { HasNoneAt self.old.late.map self.new.late.map cost }
        ensures lists { self.new.lists ≡ self.old.lists }
    {
        self.late.take(cost)
    }

    /// Adds a child of this cost, where it is at most `reach`. It answers the least cost of a child
    /// that was not added, where `above` is that of those before.
    fn keep(&mut self, cost: u32, mask: Mask, reach: u64, above: u32) -> Result<u32, NoMemory>
        ensures near { OnOk result (cost ≤ reach
            → HasOneMore self.old.lists.map self.new.lists.map cost mask) }
        ensures far { OnOk result (reach < cost → self.new.lists ≡ self.old.lists) }
        ensures late { self.new.late ≡ self.old.late }
        ensures above { IfOk result (λ a. (a ≤ above) × (reach < cost → a ≤ cost)
            × ((a ≡ above) ⊎ ((a ≡ cost) × (reach < cost)))) }
    {
        if u64::from(cost) <= reach {
            self.put(cost, mask)?;
            return Ok(above);
        }
        Ok(above.min(cost))
    }

    /// Adds the children of a mask of the level below, its unions with the equations of that level,
    /// that cost what `span` says. Where one of them costs more than its `reach`, the mask is put
    /// off in their place.
    pub(crate) fn join(
        &mut self,
        equations: &Equations,
        level: u8,
        mask: Mask,
        span: &Span,
    ) -> Result<Made, NoMemory>
        requires { level < length (members equations.now.targets) }
        ensures stays { OnOk result ((u : ℕ)
            → Holds equations.now level self.old.lists.map self.old.late.map u
            → Holds equations.now level self.new.lists.map self.new.late.map u) }
        ensures only { OnOk result ((u : ℕ)
            → Holds equations.now level self.new.lists.map self.new.late.map u
            → Holds equations.now level self.old.lists.map self.old.late.map u
            ⊎ (Contains (unions_of equations.now level mask) u
            × (span.now.from ≤ mask_cost equations.now u))) }
        ensures joins { OnOk result ((u : ℕ) → Contains (unions_of equations.now level mask) u
            → span.now.from ≤ mask_cost equations.now u → mask_cost equations.now u ≤ span.now.most
            → Holds equations.now level self.new.lists.map self.new.late.map u) }
        ensures late { OnOk result ((m v : ℕ) → IsPutOff self.new.late.map m v
            → IsPutOff self.old.late.map m v ⊎ (span.now.reach < m)) }
        ensures count { IfOk result (λ made. span.now.from ≡ 0
            → made.children ≡ length (children_of equations.now level span.now.most mask)) }
        ensures least { IfOk result (λ made. (made.least ≡ span.now.most)
            ⊎ ((u : ℕ) × Contains (unions_of equations.now level mask) u
            × (mask_cost equations.now u ≡ made.least))) }
    {
        let mut children = 0;
        let mut least = span.most;
        let mut above = NO_COST;
        let base = equations.base(level);
        let (single, plane) = equations.only_plane();
        for index in 0..equations.width() {
            let union = mask.union(equations.null(index).xor(base));
            let cost = cost_in(single, plane, equations, union);
            if is_between(span.from, cost, span.most) {
                above = self.keep(cost, union, span.reach, above)?;
                children += 1;
                least = least.min(u64::from(cost));
            }
        }
        self.put_off(above, mask)?;
        Ok(Made { children, least })
    }

    /// Makes more children of the masks that are put off to this cost: those that cost at most
    /// `most`.
    pub(crate) fn recall(
        &mut self,
        equations: &Equations,
        level: u8,
        cost: u32,
        most: u64,
    ) -> Result<(), NoMemory>
        requires { level < length (members equations.now.targets) }
        ensures only { OnOk result ((u : ℕ)
            → Holds equations.now level self.new.lists.map self.new.late.map u
            → Holds equations.now level self.old.lists.map self.old.late.map u) }
        ensures keeps { OnOk result ((u : ℕ)
            → Holds equations.now level self.old.lists.map self.old.late.map u
            → mask_cost equations.now u ≤ most
            → Holds equations.now level self.new.lists.map self.new.late.map u) }
        ensures late { OnOk result ((m v : ℕ) → IsPutOff self.new.late.map m v
            → (cost < m) ⊎ (IsPutOff self.old.late.map m v × (m ≢ cost))) }
    {
        let span = Span {
            from: cost,
            reach: reach_of(cost, equations.mean_price()),
            most,
        };
        let masks = self.take_late(cost);
        for place in 0..masks.len() {
            self.join(equations, level, masks[place], &span)?;
        }
        Ok(())
    }
}

/// Up to which cost the children are kept that are made of a mask at this cost. No proof rests on
/// how far that is.
pub(crate) fn reach_of(cost: u32, mean: u32) -> u64
    ensures { cost ≤ result }
{
    u64::from(cost) + PRICES_AHEAD * u64::from(mean)
}

/// Whether a cost is at least one and at most another.
fn is_between(from: u32, cost: u32, most: u64) -> bool
    ensures yes { result ≡ true → (from ≤ cost) × (cost ≤ most) }
    ensures no { result ≡ false → (cost < from) ⊎ (most < cost) }
{
    from <= cost && u64::from(cost) <= most
}

/// What it costs to read the symbols of `set`, by the only plane of the prices where there is a
/// single one.
fn cost_in(single: bool, plane: Mask, equations: &Equations, set: Mask) -> u32
    requires { single ≡ true → (u : ℕ) → count_ones (bit_and u plane) ≡ mask_cost equations.now u }
    ensures cost { result ≡ mask_cost equations.now set }
    ensures few { result < 131072 }
{
    if single {
        set.common(plane).count()
    } else {
        equations.cost(set)
    }
}

/// Whether a mask has this cost.
fn has_cost(masks: &[Mask], equations: &Equations, cost: u32) -> bool
    ensures none { result ≡ false → (u : ℕ) → Contains masks.now u
        → mask_cost equations.now u ≢ cost }
    ensures some { result ≡ true → (u : ℕ) × Contains masks.now u
        × (mask_cost equations.now u ≡ cost) }
{
    for place in 0..masks.len() {
        if equations.cost(masks[place]) == cost {
            return true;
        }
    }
    false
}

/// Appends the masks of this cost to a list.
pub(crate) fn append_of(
    masks: &[Mask],
    equations: &Equations,
    cost: u32,
    list: &mut Vec<Mask>,
) -> Result<(), NoMemory>
    ensures { OnOk result (list.new.items ≡ list.old.items
        ++ filter (λ u. mask_cost equations.now u == cost) masks.now) }
{
    for place in 0..masks.len() {
        if equations.cost(masks[place]) == cost {
            list.push(masks[place])?;
        }
    }
    Ok(())
}
