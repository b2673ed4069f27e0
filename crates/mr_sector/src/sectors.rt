//! The reading of a list of unreadable symbols: one on each line.

ghost use Rattle.std.specs.Prelude.{◌≡◌, ◌≢◌, ℕ, ◌+◌, ◌-◌, ◌<◌, ◌≤◌, true, false, List, [], ◌∷◌, ◌++◌, length, slice_index_or, Ok, Err, IfOk, IfSome, IfNone, IsErrOf};
ghost use Rattle.mr_mend.specs.declared.asks.Ask.{Ask as AnAsk};
ghost use Rattle.mr_mend.specs.Scripts.{ask_line, script_text};
ghost use Rattle.mr_sector.specs.declared.sectors.TheConstants.{SECTORS_LIMIT};
ghost use Rattle.mr_sector.specs.Sectors.{AreSectors, ComesBefore, HasFirstBadSector, sectors_of};

use mr_bits::Mask;
use mr_image::ImageHead;
use mr_mend::{Ask, next_ask};
use std::alloc::{AllocError, AllocFailed, Global};
use thiserror::Error;

/// The most bytes of a list of unreadable symbols.
pub const SECTORS_LIMIT: usize = 1_048_576;

/// Why a list of unreadable symbols is refused.
#[derive(Clone, Copy, PartialEq, Eq, Debug, Error)]
pub enum SectorsFault {
    /// This line, from 1, is the first that is not of its form.
    #[error("line {line} of the sectors is not of its form")]
    Line {
        /// The number of the line.
        line: u32,
    },
    /// There was no memory.
    #[error("out of memory")]
    Memory,
}

impl From<AllocError> for SectorsFault {
    ghost use Rattle.std.specs.Prelude.{◌≡◌};
    ghost use Rattle.mr_sector.specs.declared.sectors.SectorsFault.TheVariants.{Memory};

    ghost from_gives = { λ _ fault. fault ≡ Memory };

    fn from(_refused: AllocError) -> SectorsFault {
        SectorsFault::Memory
    }
}

impl<T: Drop> From<AllocFailed<T>> for SectorsFault {
    ghost use Rattle.std.specs.Prelude.{◌≡◌};
    ghost use Rattle.mr_sector.specs.declared.sectors.SectorsFault.TheVariants.{Memory};

    ghost from_gives = { λ _ fault. fault ≡ Memory };

    fn from(_refused: AllocFailed<T>) -> SectorsFault {
        SectorsFault::Memory
    }
}

/// The unreadable symbols that a text lists: on each line the number of a stripe, one space, and the number of a
/// symbol that is not lost, strictly upwards by stripe and then by symbol. Each line has its line feed.
///
/// It answers `Line` at the first line that is not of its form. It goes through the bytes once.
pub fn read_sectors(
    alloc: Global,
    bytes: &[u8],
    head: &ImageHead,
    lost: Mask,
) -> Result<Vec<Ask>, SectorsFault>
    requires { length bytes.now ≤ SECTORS_LIMIT }
    ensures text { IfOk result (λ sectors. bytes.now ≡ script_text sectors.items) }
    ensures sectors { IfOk result (λ sectors. AreSectors head.now lost sectors.items) }
    ensures bad_line { (line : ℕ) → IsErrOf result (SectorsFault.Line line)
        → HasFirstBadSector head.now lost bytes.now line }

    // What these say of the bytes, as a function of them.
    ensures reads { IfOk result (λ sectors.
        sectors_of head.now lost bytes.now ≡ Ok sectors.items) }
    ensures refuses { (line : ℕ) → IsErrOf result (SectorsFault.Line line)
        → sectors_of head.now lost bytes.now ≡ Err line }
{
    let _within_the_limits = head.bytes();
    let mut sectors = Vec::new(alloc);
    let mut left = bytes;
    while !left.is_empty() {
        let line = sectors.len() as u32 + 1;
        let (sector, rest) = next_sector(&sectors, left, head, lost).ok_or(SectorsFault::Line {
            line,
        })?;
        sectors.push(sector)?;
        left = rest;
    }
    Ok(sectors)
}

/// The sector of the line at the front, where it may stand behind these, and what is left behind its line feed.
fn next_sector<'a>(
    sectors: &[Ask],
    left: &'a [u8],
    head: &ImageHead,
    lost: Mask,
) -> Option<(Ask, &'a [u8])>
    requires some { 0 < length left.now }
    requires sectors { AreSectors head.now lost sectors.now }
    ensures text { IfSome result (λ next. left.now ≡ ask_line next.0 ++ next.1.now) }
    ensures sectors { IfSome result (λ next.
        AreSectors head.now lost (sectors.now ++ next.0 ∷ [])) }
    ensures shorter { IfSome result (λ next. length next.1.now < length left.now) }
    ensures none { IfNone result ((next : AnAsk) (more : List ℕ)
        → AreSectors head.now lost (sectors.now ++ next ∷ [])
        → left.now ≢ ask_line next ++ more) }
{
    let _within_the_limits = head.bytes();
    let (sector, rest) = next_ask(left, head)?;
    if is_behind(sectors, sector) && !lost.contains(sector.symbol) {
        Some((sector, rest))
    } else {
        None
    }
}

/// Whether a sector stands behind the last of these.
fn is_behind(sectors: &[Ask], next: Ask) -> bool
    ensures yes { result ≡ true → (d : AnAsk) → 0 < length sectors.now
        → ComesBefore (slice_index_or sectors.now (length sectors.now - 1) d) next }
    ensures no { result ≡ false → ((d : AnAsk) → 0 < length sectors.now
        → ComesBefore (slice_index_or sectors.now (length sectors.now - 1) d) next) → ⊥ }
{
    match sectors.last() {
        None => true,
        Some(last) => comes_before(*last, next),
    }
}

/// Whether `a` stands before `b`: by stripe, and in one stripe by symbol.
fn comes_before(a: Ask, b: Ask) -> bool
    ensures yes { result ≡ true → ComesBefore a b }
    ensures no { result ≡ false → ComesBefore a b → ⊥ }
{
    a.stripe < b.stripe || (a.stripe == b.stripe && a.symbol < b.symbol)
}
