//! Texts cut at a byte, as at a line feed or a space.

ghost use Rattle.std.specs.Prelude.{◌≡◌, ◌==◌, ◌<◌, [], ◌∷◌, length, IfSome, MatchOption};
ghost use Rattle.std.specs.List.{position_or_len, before_first, after_first};
ghost use Rattle.mr_text.specs.Lines.{pieces};

use memchr::memchr;

/// What stands before the first byte `at`, and what stands behind it: None exactly where no byte is
/// `at`. Takes no memory.
pub fn split_at_byte(bytes: &[u8], at: u8) -> Option<(&[u8], &[u8])>
    ensures pieces { MatchOption result (pieces at bytes.now ≡ bytes.now ∷ [])
        (λ split. pieces at bytes.now ≡ split.0.now ∷ pieces at split.1.now) }
    ensures split { MatchOption result (position_or_len (λ b. b == at) bytes.now ≡ length bytes.now)
        (λ split. (position_or_len (λ b. b == at) bytes.now < length bytes.now)
        × (split.0.now ≡ before_first (λ b. b == at) bytes.now)
        × (split.1.now ≡ after_first (λ b. b == at) bytes.now)) }
    ensures shorter { IfSome result (λ split. length split.1.now < length bytes.now) }
{
    let place = memchr(at, bytes)?;
    Some((&bytes[..place], &bytes[place + 1..]))
}
