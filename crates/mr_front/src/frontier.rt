ghost use Rattle.std.specs.Prelude.{◌≡◌, ℕ, ◌↔◌, ◌⊎◌, IfOk, IfSome, IfNone, OnOk, OnErr};
ghost use Rattle.std.specs.List.{All};
ghost use Rattle.mr_front.specs.Waiting.{Waits, WaitsToo, WaitsSame};
ghost use Rattle.mr_front.specs.Layers.{IsFirstLayer, IsRest};

use crate::layers::Layer;
use crate::masks::Masks;
use crate::waiting::Waiting;
use mr_bits::{Mask, NoMemory};
use mr_eq::Problem;
use std::alloc::Global;
use std::marker::Model;

/// The masks that wait to be expanded, at their levels, by what it costs to read their symbols. Equal masks at one level
/// wait once.
#[derive(Drop)]
pub struct Frontier {
    waiting: Waiting,
}

impl Model for Frontier {
    ghost use Rattle.mr_front.specs.Waiting.{Queue};

    ghost Value = { Queue };

    ghost use Rattle.mr_front.specs.Lists.{waiting_in};

    ghost view = { λ f. record { loss = f.waiting.problem; masks = waiting_in f.waiting.lists } };
}

impl Frontier {
    /// The frontier at the start of the search for a problem: the empty mask waits at level 0.
    pub fn new(alloc: Global, problem: &Problem) -> Result<Frontier, NoMemory>
        ensures loss { IfOk result (λ f. f.loss ≡ problem.now) }
        ensures start { IfOk result (λ f. (i u : ℕ) → Waits f i u ↔ ((i ≡ 0) × (u ≡ 0))) }
    {
        let mut frontier = Frontier {
            waiting: Waiting::new(alloc, problem),
        };
        frontier.add(0, &[Mask::EMPTY])?;
        Ok(frontier)
    }

    /// Takes the first layer: all distinct masks that wait at the least cost and, for that cost, the least level.
    /// None exactly where nothing waits.
    pub fn take_layer(&mut self) -> Option<Layer>
        ensures loss { self.new.loss ≡ self.old.loss }
        ensures nothing { IfNone result ((i u : ℕ) → Waits self.old i u → ⊥) }
        ensures same { IfNone result (WaitsSame (Waits self.old) (Waits self.new)) }
        ensures layer { IfSome result (IsFirstLayer self.old.loss (Waits self.old)) }
        ensures rest { IfSome result (IsRest self.old.loss (Waits self.old) (Waits self.new)) }
    {
        let (key, list) = self.waiting.take_first()?;
        Some(Layer {
            cost: key.0,
            level: key.1,
            masks: Masks::distinct(list),
        })
    }

    /// Lets masks wait at a level. After `NoMemory` the same masks wait as before.
    pub fn add(&mut self, level: u8, masks: &[Mask]) -> Result<(), NoMemory>
        ensures loss { self.new.loss ≡ self.old.loss }
        ensures added { OnOk result (WaitsToo (Waits self.old) (Waits self.new) level masks.now) }
        ensures same { OnErr result (WaitsSame (Waits self.old) (Waits self.new)) }
    {
        self.waiting.add(level, masks)
    }
}
