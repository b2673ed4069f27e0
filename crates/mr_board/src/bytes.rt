ghost use Rattle.std.specs.Prelude.{◌≡◌, ◌+◌, ◌*◌, ◌≤◌, ◌++◌, length, take};
ghost use Rattle.std.specs.Int.{to_le_bytes, w64};

/// Makes the eight bytes of word `number` those of this word, the lowest first.
pub(crate) fn put_word(dst: &mut [u8], number: usize, word: u64)
    requires { 8 * number + 8 ≤ length dst.old }
    ensures { take (8 * number + 8) dst.new ≡ take (8 * number) dst.old ++ to_le_bytes w64 word }
{
    let at = 8 * number;
    dst[at..at + 8].copy_from_slice(&word.to_le_bytes());
}
