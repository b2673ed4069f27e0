ghost use Rattle.std.specs.Prelude.{◌≡◌, ◌≢◌, ℕ, suc, ◌+◌, ◌<◌, ◌≤◌, ◌⊎◌, ◌↔◌, true, false, length, slice_index, IfOk, IfSome, IfNone, OnOk};
ghost use Rattle.std.specs.List.{Contains};
ghost use Rattle.mr_model.specs.Members.{members};
ghost use Rattle.mr_eq.specs.Problems.{Loss};
ghost use Rattle.mr_front.specs.Waiting.{mask_cost};
ghost use Rattle.mr_front.specs.Children.{unions_of, children_of};
ghost use Rattle.mr_front.specs.CostLists.{list_in, AtMost};
ghost use Rattle.mr_front.specs.Rows.{AtRow, StandsAt, InRows, LateIn, row_count};
ghost use Rattle.mr_front.specs.Layers.{IsFirstKey, IsFirst, HasLost};

use crate::cost_lists::lesser;
use crate::layers::Layer;
use crate::row::{Made, Row, Span, append_of, reach_of};
use mr_bits::{Mask, NoMemory};
use mr_eq::Equations;
use std::alloc::Global;

/// The masks that wait to be expanded: a row for each level and for what is above the last one.
///
/// Of the children of a mask only those are kept that cost little more than the mask. The mask is
/// put off in the place of the others: they wait with it, and are made once the search has come to
/// what they cost.
#[derive(Drop)]
pub struct Rows {
    rows: Vec<Row>,
}

impl Rows {
    /// Rows in which nothing waits, for so many levels.
    pub fn new(alloc: Global, levels: u8) -> Result<Rows, NoMemory>
        ensures count { IfOk result (λ r. row_count r ≡ levels + 1) }
        ensures none { IfOk result (λ r. (p : Loss) (i u : ℕ) → InRows p r i u → ⊥) }
    {
        let mut rows = Vec::new(alloc);
        for _ in 0..u32::from(levels) + 1 {
            rows.push(Row::new(alloc))?;
        }
        Ok(Rows { rows })
    }

    /// Rows at the start of a search, for so many levels: the empty mask waits at level 0.
    pub fn start(alloc: Global, levels: u8) -> Result<Rows, NoMemory>
        ensures count { IfOk result (λ r. row_count r ≡ levels + 1) }
        ensures start { IfOk result (λ r. (p : Loss) (i u : ℕ)
            → InRows p r i u ↔ ((i ≡ 0) × (u ≡ 0))) }
    {
        let mut start = Rows::new(alloc, levels)?;
        start.rows[0].put(0, Mask::EMPTY)?;
        Ok(start)
    }

    /// The least cost at which something waits and, for that cost, the least level, or None where
    /// nothing waits. The children that were put off up to there are made, except those that cost
    /// more than `most`, which wait no more.
    pub fn first_key(
        &mut self,
        equations: &Equations,
        levels: u8,
        most: u64,
    ) -> Result<Option<(u32, u8)>, NoMemory>
        requires levels { levels ≡ length (members equations.now.targets) }
        requires count { row_count self.old ≡ levels + 1 }
        ensures count { row_count self.new ≡ row_count self.old }
        ensures lost { OnOk result (HasLost equations.now most (InRows equations.now self.old)
            (InRows equations.now self.new)) }
        ensures first { IfOk result
            (IsFirst equations.now (InRows equations.now self.new) (LateIn self.new)) }
    {
        let mut cost = 0;
        'costs: loop {
            if let Some(level) = self.first_level(equations, levels, cost, most)? {
                return Ok(Some((cost, level)));
            }
            let Some(next) = self.least_above(cost) else {
                return Ok(None);
            };
            cost = next;
        }
    }

    /// The least level at which something of this cost waits, as `first_key` finds it.
    fn first_level(
        &mut self,
        equations: &Equations,
        levels: u8,
        cost: u32,
        most: u64,
    ) -> Result<Option<u8>, NoMemory>
        requires levels { levels ≡ length (members equations.now.targets) }
        requires count { row_count self.old ≡ levels + 1 }
        requires least { (i u : ℕ) → InRows equations.now self.old i u
            → cost ≤ mask_cost equations.now u }
        requires late { (k c v : ℕ) → LateIn self.old k c v → cost ≤ c }
        ensures count { row_count self.new ≡ row_count self.old }
        ensures lost { OnOk result (HasLost equations.now most (InRows equations.now self.old)
            (InRows equations.now self.new)) }
        ensures nothing { IfOk result (λ found. IfNone found ((i u : ℕ)
            → InRows equations.now self.new i u → cost < mask_cost equations.now u)) }
        ensures late { IfOk result (λ found. IfNone found ((k c v : ℕ)
            → LateIn self.new k c v → cost < c)) }
        ensures first { IfOk result (λ found. IfSome found
            (IsFirstKey equations.now (InRows equations.now self.new) (LateIn self.new) cost)) }
    {
        for level in 0..u32::from(levels) + 1 {
            self.recall(equations, level as u8, cost, most)?;
            if self.has(equations, level as u8, cost) {
                return Ok(Some(level as u8));
            }
        }
        Ok(None)
    }

    /// Whether a mask of this cost stands in a list of this level.
    fn has(&self, equations: &Equations, level: u8, cost: u32) -> bool
        requires { level < row_count self.now }
        ensures none { result ≡ false → (u : ℕ)
            → StandsAt equations.now self.now.rows.items level u → mask_cost equations.now u ≢ cost }
        ensures some { result ≡ true → (u : ℕ) × StandsAt equations.now self.now.rows.items level u
            × (mask_cost equations.now u ≡ cost) }
    {
        self.rows[usize::from(level)].has(equations, cost)
    }

    /// Makes more children of the masks that are put off to this cost and belong to the level below
    /// this one: those that cost at most `most`.
    fn recall(
        &mut self,
        equations: &Equations,
        level: u8,
        cost: u32,
        most: u64,
    ) -> Result<(), NoMemory>
        requires level { level ≤ length (members equations.now.targets) }
        requires count { row_count self.old ≡ length (members equations.now.targets) + 1 }
        ensures count { row_count self.new ≡ row_count self.old }
        ensures lost { OnOk result (HasLost equations.now most (InRows equations.now self.old)
            (InRows equations.now self.new)) }
        ensures late { OnOk result ((k c v : ℕ) → LateIn self.new k c v
            → (cost < c) ⊎ (LateIn self.old k c v × (level ≡ suc k → c ≢ cost))) }
    {
        if level == 0 {
            return Ok(());
        }
        self.rows[usize::from(level)].recall(equations, level - 1, cost, most)
    }

    /// The least cost above this one at which a mask stands in a list, or to which one is put off.
    fn least_above(&self, above: u32) -> Option<u32>
        ensures lists { (i c u : ℕ)
            → AtRow (λ r. Contains (list_in r.lists.map c) u) self.now.rows.items i → above < c
            → AtMost result c }
        ensures late { (i c u : ℕ)
            → AtRow (λ r. Contains (list_in r.late.map c) u) self.now.rows.items i → above < c
            → AtMost result c }
        ensures above { IfSome result (λ k. above < k) }
    {
        let mut least = None;
        for place in 0..self.rows.len() {
            least = lesser(least, self.rows[place].least_above(above));
        }
        least
    }

    /// About how many masks are expanded again before the first key is known. No proof rests on it.
    pub fn due(&self) -> usize {
        let Some(cost) = self.least_above(0) else {
            return 0;
        };
        let mut many = 0;
        for place in 0..self.rows.len() {
            many = self.rows[place].count_late(cost).max(many);
        }
        many
    }

    /// Moves the masks that wait at this cost and level to a list. No mask is put off that may have
    /// more of them.
    pub fn take(
        &mut self,
        equations: &Equations,
        cost: u32,
        level: u8,
        list: &mut Vec<Mask>,
    ) -> Result<(), NoMemory>
        requires level { level < row_count self.old }
        requires made { (k c v : ℕ) → level ≡ suc k → LateIn self.old k c v → cost < c }
        ensures count { row_count self.new ≡ row_count self.old }
        ensures taken { OnOk result ((u : ℕ) → Contains list.new.items u
            ↔ (Contains list.old.items u ⊎ (InRows equations.now self.old level u
            × (mask_cost equations.now u ≡ cost)))) }
        ensures rest { OnOk result ((i u : ℕ) → InRows equations.now self.new i u
            ↔ (InRows equations.now self.old i u
            × (i ≡ level → mask_cost equations.now u ≢ cost))) }
    {
        let masks = self.rows[usize::from(level)].take(cost);
        append_of(&masks, equations, cost, list)
    }

    /// Lets the children of the mask at a place of a layer wait at the next level, as `expand` makes
    /// them, except those that cost more than `most`.
    pub fn join(
        &mut self,
        equations: &Equations,
        layer: &Layer,
        place: usize,
        most: u64,
    ) -> Result<Made, NoMemory>
        requires level { layer.now.level < length (members equations.now.targets) }
        requires place { place < length layer.now.masks }
        requires count { row_count self.old ≡ length (members equations.now.targets) + 1 }
        ensures count { row_count self.new ≡ row_count self.old }
        ensures stays { OnOk result ((i u : ℕ)
            → InRows equations.now self.old i u → InRows equations.now self.new i u) }
        ensures only { OnOk result ((i u : ℕ) → InRows equations.now self.new i u
            → InRows equations.now self.old i u ⊎ ((i ≡ layer.now.level + 1)
            × Contains (unions_of equations.now layer.now.level
            (slice_index layer.now.masks place)) u)) }
        ensures joins { OnOk result ((u : ℕ)
            → Contains (children_of equations.now layer.now.level most
            (slice_index layer.now.masks place)) u
            → InRows equations.now self.new (layer.now.level + 1) u) }
        ensures children { IfOk result (λ made. made.children
            ≡ length (children_of equations.now layer.now.level most
            (slice_index layer.now.masks place))) }
        ensures least { IfOk result (λ made. (made.least ≡ most)
            ⊎ ((u : ℕ) × Contains (unions_of equations.now layer.now.level
            (slice_index layer.now.masks place)) u
            × (mask_cost equations.now u ≡ made.least))) }
    {
        let span = Span {
            from: 0,
            reach: reach_of(layer.cost, equations.mean_price()),
            most,
        };
        let mask = layer.masks.get(place);
        self.rows[usize::from(layer.level) + 1].join(equations, layer.level, mask, &span)
    }
}
