// White space and lines.

ghost use Rattle.std.specs.Int.{bit_at};
ghost use Rattle.std.specs.Prelude.{◌≡◌, ℕ, ◌<◌, ◌==◌, slice_index};
ghost use Rattle.vcd_read.specs.Tokens.{is_white, line_after};

use std::simd::prelude::*;

/// Whether the byte separates tokens.
#[inline(always)]
pub(crate) fn is_white(byte: u8) -> bool
    ensures { result ≡ is_white byte }
{
    (b'\t' <= byte && byte <= b'\r') || byte == b' '
}

/// Which of 64 bytes separate tokens: bit i is set where byte i does.
#[inline(always)]
pub(crate) fn whites(bytes: u8x64) -> u64
    ensures { (i : ℕ) → i < 64 → (bit_at result i == 1) ≡ is_white (slice_index bytes i) }
{
    let from_tab = bytes - u8x64::splat(b'\t');
    let is_break = from_tab.simd_le(u8x64::splat(b'\r' - b'\t'));
    (is_break | bytes.simd_eq(u8x64::splat(b' '))).to_bitmask()
}

/// The line of what stands after this byte, where the byte stands on this line.
#[inline(always)]
pub(crate) fn line_after(line: u64, byte: u8) -> u64
    ensures { result ≡ line_after line byte }
{
    if byte == b'\n' {
        line.saturating_add(1)
    } else {
        line
    }
}
