//! The rule of the table of a board, and what each kind of step tells its pass.
ghost use Rattle.std.specs.Prelude.{◌≡◌, ◌+◌, ◌<◌, ◌≤◌, ◌-◌, ℕ, length, IfSome, Some};
ghost use Rattle.mr_counts.specs.Numbers.{AreEachBelow, times, next_above};
ghost use Rattle.mr_counts.specs.Shares.{whole_share};
ghost use Rattle.mr_board.specs.Terms.{words_of};
ghost use Rattle.mr_board.specs.Rights.{IsRight};
ghost use Rattle.mr_board.specs.Rule.{Kept, word_place};
ghost use Rattle.mr_board.specs.Views.{first_view, with_draw, with_word, with_done, with_given_up, with_look, kept_view, split_view, joined_view, spent_view};

use crate::rights::Rights;
use crate::view::PassView;
use atomic_table::{Join, Play, Split, TableRule};
use mr_image::ImageHead;
use mr_plan::Plans;
use std::snapshot::Snapshot;

/// What a board is made with.
#[derive(Drop)]
pub struct Terms {
    /// The head of the image.
    pub head: ImageHead,
    /// The plans of the stripes, for contracts alone.
    pub plans: Snapshot<Plans>,
    /// The right words where the image is told, for contracts alone.
    pub rights: Rights,
}

/// The rule that each step keeps.
pub struct BoardRule;

impl TableRule<(), PassView, Terms> for BoardRule {
    ghost use Rattle.mr_board.specs.Keys.{key_terms};

    ghost holds = { λ key. Kept (key_terms key) };

    ghost first = { λ key. first_view (key_terms key) };
}

/// A fetch_add of the number of draws. What it finds is above all that the pass drew before.
pub struct Draw;

impl Play<(), PassView> for Draw {
    ghost then = { λ _ me n after. (next_above me.0.draws ≤ n)
        × (after ≡ (with_draw me.0 n, me.1)) };
}

/// A store of a word of the open stripe.
pub struct Store;

impl Play<(), PassView> for Store {
    ghost then = { λ at me _ after. (t i : ℕ) × (me.0.claimed ≡ Some t)
        × (at.word ≡ word_place me.0.terms t i) × (after ≡ (with_word me.0 i, me.1)) };
}

/// A store of the state of the open stripe, which is done from then on.
pub struct Publish;

impl Play<(), PassView> for Publish {
    ghost then = { λ at me _ after. after ≡ (with_done me.0 (at.word - 1), me.1) };
}

/// A load of the state of a stripe. It is done where the pass saw it done before.
pub struct Look;

impl Play<(), PassView> for Look {
    ghost then = { λ at me x after. (x < 2) × (0 < times (at.word - 1) me.0.seen → x ≡ 1)
        × (after ≡ (with_look me.0 (at.word - 1) x, me.1)) };
}

/// A load of the state of the open stripe, which is given up.
pub struct GiveUp;

impl Play<(), PassView> for GiveUp {
    ghost then = { λ at me _ after. after ≡ (with_given_up me.0 (at.word - 1), me.1) };
}

/// A load of a word. It is right where it is one of a stripe that the pass saw done.
pub struct Read;

impl Play<(), PassView> for Read {
    ghost then = { λ at me x after. (after ≡ me) × ((t i : ℕ) → 0 < times t me.0.seen
        → i < words_of me.0.terms → at.word ≡ word_place me.0.terms t i
        → IsRight me.0.terms t i x) };
}

/// A load of the number of draws after a join. A pass that has all parts drew each number below the
/// number of its draws once.
pub struct Review;

impl Play<(), PassView> for Review {
    ghost then = { λ _ me _ after. (after ≡ me) × (me.0.parts + me.0.left ≡ whole_share
        → AreEachBelow me.0.draws (length me.0.draws)) };
}

/// A split of a pass.
pub struct Cut;

impl Split<PassView> for Cut {
    ghost left = { kept_view };

    ghost right = { split_view };
}

/// A join of two passes.
pub struct Union;

impl Join<PassView> for Union {
    ghost both = { joined_view };

    ghost spent = { spent_view };
}
