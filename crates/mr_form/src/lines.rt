ghost use Rattle.std.specs.Prelude.{◌≡◌, ◌==◌, [], ◌∷◌, length, MatchResult, if◌then◌else◌};
ghost use Rattle.mr_form.specs.MatrixText.{lines};

use crate::faults::LineKind;
use mr_text::split_at_byte;

/// The line at the front of what is left, and what is left behind its line feed.
///
/// It answers `Missing` where no byte is left, and `NoEnd` where bytes are left and none is a line
/// feed.
pub fn take_line(left: &[u8]) -> Result<(&[u8], &[u8]), LineKind>
    ensures { MatchResult result (λ split. lines left.now ≡ split.0.now ∷ lines split.1.now)
        (λ kind. (lines left.now ≡ left.now ∷ [])
        × (kind ≡ (if length left.now == 0 then LineKind.Missing else LineKind.NoEnd))) }
{
    match split_at_byte(left, b'\n') {
        Some(split) => Ok(split),
        None if left.is_empty() => Err(LineKind::Missing),
        None => Err(LineKind::NoEnd),
    }
}
