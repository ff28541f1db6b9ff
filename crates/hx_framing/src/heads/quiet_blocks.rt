//! Bytes of a head at which no empty line begins are passed sixteen at a time.
ghost use Rattle.std.specs.Prelude.{◌≡◌, ◌≤◌, ◌<◌, ◌+◌, ℕ, IsTrue, length, drop};
ghost use Rattle.hx_framing.specs.HeadEnd.{head_end_size_at_front, head_end_from};

use std::simd::prelude::*;

const BLOCK_BYTES: usize = 16;

/// Whether at none of sixteen places an LF stands in front of LF or CR.
#[inline(always)]
fn is_quiet_block(bytes: &[u8], at: usize) -> bool
    requires { at + 17 ≤ length bytes.now }
    ensures { IsTrue result → (k : ℕ) → at ≤ k → k < at + 16 → head_end_size_at_front (drop k bytes.now) ≡ 0 }
{
    let here = u8x16::from_slice(&bytes[at..]);
    let next = u8x16::from_slice(&bytes[at + 1..]);
    let ends = here.simd_eq(u8x16::splat(b'\n'));
    let begins = next.simd_eq(u8x16::splat(b'\n')) | next.simd_eq(u8x16::splat(b'\r'));
    (ends & begins).to_bitmask() == 0
}

/// From an index on, the end of such blocks: no empty line begins in front of it.
pub(crate) fn end_of_blocks_without_empty_line(bytes: &[u8], from: usize) -> usize
    requires { from ≤ length bytes.now }
    ensures place { head_end_from result (drop result bytes.now) ≡ head_end_from from (drop from bytes.now) }
    ensures within { result ≤ length bytes.now }
{
    let mut at = from;
    while bytes.len() - at > BLOCK_BYTES && is_quiet_block(bytes, at) {
        at += BLOCK_BYTES;
    }
    at
}
