//! The symbols of a stripe that cannot be read, from the lost devices and a list of sectors.

ghost use Rattle.std.specs.Prelude.{◌≡◌, ℕ, ◌+◌, ◌<◌, ◌≤◌, length, slice_index_or, All};
ghost use Rattle.mr_mend.specs.declared.asks.Ask.{Ask as AnAsk};
ghost use Rattle.mr_sector.specs.Patterns.{AreFrom, failed, with_sector};

use mr_bits::Mask;
use mr_mend::Ask;

/// The symbols of a stripe that are lost or named by these sectors.
pub fn failed_symbols(lost: Mask, sectors: &[Ask], stripe: u32) -> Mask
    requires { All (λ (sector : AnAsk). sector.symbol < 128) sectors.now }
    ensures { result ≡ failed lost sectors.now stripe }
{
    let mut set = lost;
    for sector in sectors {
        set = with_sector(set, *sector, stripe);
    }
    set
}

/// The set together with the sector's symbol, if it is of this stripe.
fn with_sector(set: Mask, sector: Ask, stripe: u32) -> Mask
    requires { sector.symbol < 128 }
    ensures { result ≡ with_sector stripe set sector }
{
    if sector.stripe == stripe {
        set.with(sector.symbol)
    } else {
        set
    }
}

/// The symbols of a stripe that are lost or named by these sectors, and the sectors of later stripes.
///
/// The sectors stand upwards by stripe, and none is of a stripe before this one. So a walk through all stripes
/// looks at each sector once.
pub fn next_pattern(lost: Mask, sectors: &[Ask], stripe: u32) -> (Mask, &[Ask])
    requires symbols { All (λ (sector : AnAsk). sector.symbol < 128) sectors.now }
    requires upwards { AreFrom stripe sectors.now }
    ensures set { result.0 ≡ failed lost sectors.now stripe }
    ensures symbols { All (λ (sector : AnAsk). sector.symbol < 128) result.1.now }
    ensures upwards { AreFrom (stripe + 1) result.1.now }
    ensures later { (v s : ℕ) → stripe < s → failed v sectors.now s ≡ failed v result.1.now s }
{
    let end = own_sectors(sectors, stripe);
    (
        failed_symbols(lost, &sectors[..end], stripe),
        &sectors[end..],
    )
}

/// How many sectors at the front are of this stripe.
fn own_sectors(sectors: &[Ask], stripe: u32) -> usize
    ensures few { result ≤ length sectors.now }
    ensures own { (j : ℕ) (d : AnAsk) → j < result
        → (slice_index_or sectors.now j d).stripe ≡ stripe }
    ensures last { (d : AnAsk) → result < length sectors.now
        → (slice_index_or sectors.now result d).stripe ≡ stripe → ⊥ }
{
    for (k, sector) in sectors.iter().enumerate() {
        if sector.stripe != stripe {
            return k;
        }
    }
    sectors.len()
}
