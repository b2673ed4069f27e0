ghost use Rattle.std.specs.Prelude.{◌≡◌, ◌+◌, ◌*◌, ◌^◌, ◌<◌, ◌≤◌, ◌/◌, ℕ, List, [], length, slice_index, Some, None, true, IfOk, IfSome, IfNone};
ghost use Rattle.mr_counts.specs.Numbers.{AreEachBelow, times};
ghost use Rattle.mr_counts.specs.Shares.{whole_share};
ghost use Rattle.mr_image.specs.Images.{Layout, image_of, mended};
ghost use Rattle.mr_plan.specs.Plans.{PlanParts};
ghost use Rattle.mr_plan.specs.PlanLists.{ArePlans, recipes_at, symbols_of};
ghost use Rattle.mr_board.specs.Terms.{stripes_of, words_of, symbol_words, stripe_words};
ghost use Rattle.mr_board.specs.Rule.{all_words};
ghost use Rattle.mr_board.specs.Keys.{key_terms};

use crate::bytes::put_word;
use crate::rights::rights_for;
use crate::rule::{BoardRule, Cut, Draw, GiveUp, Look, Publish, Read, Review, Store, Terms, Union};
use crate::view::PassView;
use atomic_table::{Seat, Table};
use mr_bits::NoMemory;
use mr_image::ImageHead;
use mr_io::Eye;
use mr_plan::Plans;
use std::alloc::Global;
use std::snapshot::Snapshot;

/// The word that is the number of draws.
const DRAWN: usize = 0;

/// How many bytes a word has.
const WORD: u32 = 8;

/// The shared board of a rebuild: which stripes were drawn, which are done, and the words of their lost
/// symbols.
///
/// It is shared by `&`. Each thread steps with a pass of its own; no step takes memory, and none waits
/// for another.
#[derive(Drop)]
pub struct Board {
    table: Table<(), PassView, Terms, BoardRule, Global>,
    stripes: u32,
    words: u32,
    symbol: u32,
    ghost stripes_named: { stripes ≡ stripes_of (key_terms table.shared.key) },
    ghost words_named: { words ≡ words_of (key_terms table.shared.key) },
    ghost symbol_named: { symbol ≡ symbol_words table.shared.key.head },
    ghost whole_words: { 8 * symbol ≡ table.shared.key.head.symbol_bytes },
    ghost all_named: { table.shared.table_id.words ≡ all_words (key_terms table.shared.key) },
    ghost few_words: { words ≤ 2 ^ 20 },
    ghost few_in_all: { 1 + stripes + stripes * words < 2 ^ 40 },
    ghost plans: { ArePlans table.shared.key.plans.value },
}

/// A pass of a board, with which one thread steps. It has no bytes. Contracts see by `pass_view` what it
/// knows: a `PassView`.
#[derive(Drop)]
pub struct Pass {
    seat: Seat<(), PassView>,
    ghost bare: { seat.me.1 ≡ [] },
    ghost live: { 0 < seat.me.0.parts },
}

/// A stripe that a pass drew. It must be published or given up.
pub struct Claim {
    stripe: u32,
}

impl Claim {
    ghost use Rattle.mr_board.specs.Boards.{claimed_stripe};

    /// The stripe, which is open in the pass that drew it.
    pub fn stripe(&self) -> u32
        ensures { result ≡ claimed_stripe self.now }
    {
        self.stripe
    }
}

impl Board {
    ghost use Rattle.mr_board.specs.Rights.{IsRight};
    ghost use Rattle.mr_board.specs.Rule.{word_place};
    ghost use Rattle.mr_board.specs.Views.{first_view, with_word, with_done, with_given_up, with_look, kept_view, split_view, joined_view};
    ghost use Rattle.mr_board.specs.Boards.{board_terms, pass_view, claimed_stripe, IsBoardOf, IsPassOf, IsClaimOf, IsReady, DrawsStripe, DrawsNone, state_of};

    /// The board of the image with this head, whose stripes have these plans, and its first pass, from
    /// which 4,095 others can be split off. No stripe is drawn.
    ///
    /// Where the eye tells the bytes of the image's file, the right words are those of the mended image.
    pub fn new<E: Eye>(
        alloc: Global,
        eye: &E,
        head: &ImageHead,
        plans: &Plans,
    ) -> Result<(Board, Pass), NoMemory>
        ensures board { IfOk result (λ made.
            IsBoardOf made.0 head.now plans.now (E.sight eye.now).bytes) }
        ensures pass { IfOk result (λ made. IsPassOf made.0 made.1) }
        ensures view { IfOk result (λ made. pass_view made.1 ≡ first_view (board_terms made.0)) }
    {
        let stripes = head.stripes();
        let symbol = head.bytes() / WORD;
        let words = words_of_stripe(head, plans);
        let count = 1 + stripes as usize + stripes as usize * words as usize;
        let zeros = vec![in alloc; 0; count]?;
        let terms = Terms {
            head: *head,
            plans: Snapshot::of(plans),
            rights: rights_for(eye, head, plans),
        };
        let (table, seat) = Table::of_words(alloc, &zeros, &terms)?;
        let board = Board {
            table,
            stripes,
            words,
            symbol,
        };
        Ok((board, Pass { seat }))
    }

    /// How many words a stripe has: those of its lost symbols.
    pub fn words(&self) -> u32
        ensures { result ≡ words_of (board_terms self.now) }
    {
        self.words
    }

    /// A pass for another thread. It knows what this pass saw done, has drawn nothing, and none can be
    /// split off from it.
    pub fn split(&self, pass: &mut Pass) -> Pass
        requires pass { IsPassOf self.now pass.old }
        requires left { 0 < (pass_view pass.old).left }
        ensures pass { IsPassOf self.now pass.new }
        ensures kept { pass_view pass.new ≡ kept_view (pass_view pass.old) }
        ensures other { IsPassOf self.now result }
        ensures part { pass_view result ≡ split_view (pass_view pass.old) }
    {
        let seat = self.table.shared.split_seat::<Cut>(&mut pass.seat);
        Pass { seat }
    }

    /// The pass takes in what another knows. Neither has an open stripe. Where the pass then has all
    /// parts, its draws are the numbers below their count, each once.
    pub fn join(&self, pass: &mut Pass, other: Pass)
        requires pass { IsPassOf self.now pass.old }
        requires other { IsPassOf self.now other }
        requires idle { (pass_view pass.old).claimed ≡ None }
        requires other_idle { (pass_view other).claimed ≡ None }
        ensures pass { IsPassOf self.now pass.new }
        ensures joined { pass_view pass.new ≡ joined_view (pass_view pass.old) (pass_view other) }
        ensures whole { let v = pass_view pass.new in v.parts + v.left ≡ whole_share
            → AreEachBelow v.draws (length v.draws) }
    {
        let Pass { seat: other } = other;
        self.table.shared.join_seat::<Union>(&mut pass.seat, other);
        self.table.shared.load::<Review>(&mut pass.seat, DRAWN);
    }

    /// A stripe that no pass drew before, or `None` where the number drawn is no stripe. A pass that was
    /// answered `None` does not draw again. Each number drawn is above all that the pass drew before.
    pub fn draw(&self, pass: &mut Pass) -> Option<Claim>
        requires pass { IsPassOf self.now pass.old }
        requires ready { IsReady (pass_view pass.old) }
        ensures pass { IsPassOf self.now pass.new }
        ensures some { IfSome result (λ claim.
            DrawsStripe (pass_view pass.old) (claimed_stripe claim) (pass_view pass.new)) }
        ensures none { IfNone result (DrawsNone (pass_view pass.old) (pass_view pass.new)) }
    {
        let drawn = self
            .table
            .shared
            .fetch_add::<Draw>(&mut pass.seat, DRAWN, 1);
        if drawn < u64::from(self.stripes) {
            Some(Claim {
                stripe: drawn as u32,
            })
        } else {
            None
        }
    }

    /// Stores word `index` of the open stripe. The words are stored in order, and each may be stored
    /// again. Where the image is told, the word is the right one.
    pub fn store(&self, pass: &mut Pass, claim: &Claim, index: u32, word: u64)
        requires pass { IsPassOf self.now pass.old }
        requires claim { IsClaimOf pass.old claim.now }
        requires next { index ≤ (pass_view pass.old).filled }
        requires index { index < words_of (board_terms self.now) }
        requires right { IsRight (board_terms self.now) (claimed_stripe claim.now) index word }
        ensures pass { IsPassOf self.now pass.new }
        ensures stored { pass_view pass.new ≡ with_word (pass_view pass.old) index }
    {
        let place = self.word_place(claim.stripe, index);
        self.table
            .shared
            .store::<Store>(&mut pass.seat, place, word);
    }

    /// Marks the open stripe done. All of its words are stored.
    pub fn publish(&self, pass: &mut Pass, claim: Claim)
        requires pass { IsPassOf self.now pass.old }
        requires claim { IsClaimOf pass.old claim }
        requires full { (pass_view pass.old).filled ≡ words_of (board_terms self.now) }
        ensures pass { IsPassOf self.now pass.new }
        ensures done { pass_view pass.new ≡ with_done (pass_view pass.old) (claimed_stripe claim) }
        ensures seen { 0 < times (claimed_stripe claim) (pass_view pass.new).seen }
    {
        let Claim { stripe } = claim;
        let place = 1 + stripe as usize;
        self.table.shared.store::<Publish>(&mut pass.seat, place, 1);
    }

    /// Leaves the open stripe as it is. It is never done.
    pub fn give_up(&self, pass: &mut Pass, claim: Claim)
        requires pass { IsPassOf self.now pass.old }
        requires claim { IsClaimOf pass.old claim }
        ensures pass { IsPassOf self.now pass.new }
        ensures gave { pass_view pass.new
            ≡ with_given_up (pass_view pass.old) (claimed_stripe claim) }
    {
        let Claim { stripe } = claim;
        let place = 1 + stripe as usize;
        self.table.shared.load::<GiveUp>(&mut pass.seat, place);
    }

    /// Whether the stripe is done, by one load of its state. It is true of a stripe that the pass saw
    /// done before.
    pub fn look(&self, pass: &mut Pass, stripe: u32) -> bool
        requires pass { IsPassOf self.now pass.old }
        requires stripe { stripe < stripes_of (board_terms self.now) }
        ensures pass { IsPassOf self.now pass.new }
        ensures looked { pass_view pass.new
            ≡ with_look (pass_view pass.old) stripe (state_of result) }
        ensures seen { result ≡ true → 0 < times stripe (pass_view pass.new).seen }
        ensures stays { 0 < times stripe (pass_view pass.old).seen → result ≡ true }
    {
        let place = 1 + stripe as usize;
        self.table.shared.load::<Look>(&mut pass.seat, place) == 1
    }

    /// Word `index` of a stripe that the pass saw done.
    pub fn word(&self, pass: &mut Pass, stripe: u32, index: u32) -> u64
        requires pass { IsPassOf self.now pass.old }
        requires seen { 0 < times stripe (pass_view pass.old).seen }
        requires stripe { stripe < stripes_of (board_terms self.now) }
        requires index { index < words_of (board_terms self.now) }
        ensures pass { IsPassOf self.now pass.new }
        ensures same { pass_view pass.new ≡ pass_view pass.old }
        ensures right { IsRight (board_terms self.now) stripe index result }
    {
        let place = self.word_place(stripe, index);
        self.table.shared.load::<Read>(&mut pass.seat, place)
    }

    /// Fills `dst`, which has the bytes of one symbol, with the lost symbol of this level of a stripe
    /// that the pass saw done. Where the image is told, it is the symbol of the mended image.
    pub fn copy_out(&self, pass: &mut Pass, stripe: u32, level: u8, dst: &mut [u8])
        requires pass { IsPassOf self.now pass.old }
        requires seen { 0 < times stripe (pass_view pass.old).seen }
        requires stripe { stripe < stripes_of (board_terms self.now) }
        requires level { level < length (recipes_at (board_terms self.now).plans 0) }
        requires room { length dst.old ≡ (board_terms self.now).head.symbol_bytes }
        ensures pass { IsPassOf self.now pass.new }
        ensures same { pass_view pass.new ≡ pass_view pass.old }
        ensures mended { (l : Layout) (plans : List PlanParts) (bytes : List ℕ)
            → IsBoardOf self.now l plans (Some bytes)
            → dst.new ≡ mended l (recipes_at plans) (image_of l bytes) stripe
            (slice_index (symbols_of (recipes_at plans 0)) level) }
    {
        let first = u32::from(level) * self.symbol;
        for number in 0..self.symbol {
            let word = self.word(pass, stripe, first + number);
            put_word(dst, number as usize, word);
        }
    }

    /// Where a word of a stripe stands in the table.
    fn word_place(&self, stripe: u32, index: u32) -> usize
        requires stripe { stripe < stripes_of (board_terms self.now) }
        requires index { index < words_of (board_terms self.now) }
        ensures place { result ≡ word_place (board_terms self.now) stripe index }
        ensures inside { result < self.now.table.shared.table_id.words }
    {
        let before = stripe as usize * self.words as usize;
        1 + self.stripes as usize + before + index as usize
    }
}

/// How many words a stripe has: those of the symbols that the plans have recipes for.
fn words_of_stripe(head: &ImageHead, plans: &Plans) -> u32
    ensures count { result ≡ stripe_words head.now plans.now }
    ensures few { result ≤ 2 ^ 20 }
    ensures few_in_all { head.now.stripes * result < 2 ^ 33 }
    ensures plans { ArePlans plans.now }
{
    plans.at(0).recipes().len() as u32 * (head.bytes() / WORD)
}
