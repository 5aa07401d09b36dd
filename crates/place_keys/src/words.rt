//! The bytes of short texts, read as numbers, to be compared and hashed.

ghost use Rattle.std.specs.Prelude.{◌≡◌, ◌%◌, ◌^◌, take, drop, nat_eq};
ghost use Rattle.std.proofs.Common.{rules};
ghost use Rattle.std.specs.Str.{bytes_eq};
ghost use Rattle.std.specs.Ordering.{on};
ghost use Rattle.std.specs.Simd.Lanes.{number_l};
ghost use Rattle.std.specs.Cmp.Lexicographic.{pointwise};
ghost use Rattle.std.specs.Cmp.Rules.{comparing};
ghost use Rattle.place_keys.specs.Marks.{mixed, text_mark};

use std::simd::prelude::*;

/// An odd number without a pattern.
const FACTOR: u64 = 0x9e37_79b9_7f4a_7c15;

/// A text of at most twelve bytes. Texts of different lengths may have the same bytes, as one that ends in zeros.
#[derive(Clone, Copy, Debug)]
pub struct Text {
    /// The text, and zeros after it.
    pub bytes: [u8; 12],
}

/// The first eight bytes.
#[inline(always)]
fn front(bytes: &[u8; 12]) -> u64
    ensures { result ≡ number_l 256 (take 8 bytes.now) % 2 ^ 64 }
{
    u64x1::from_le_bytes(u8x8::from_slice(&bytes[..])).to_array()[0]
}

/// The last four bytes.
#[inline(always)]
fn back(bytes: &[u8; 12]) -> u32
    ensures { result ≡ number_l 256 (drop 8 bytes.now) }
{
    u32x1::from_le_bytes(u8x4::from_slice(&bytes[8..])).to_array()[0]
}

/// Whether the bytes are the same.
#[inline(always)]
fn same_bytes(one: &[u8; 12], other: &[u8; 12]) -> bool
    ensures { result ≡ bytes_eq one.now other.now }
{
    front(one) == front(other) && back(one) == back(other)
}

impl PartialEq for Text {
    ghost eq = { on (λ text. text.bytes) (pointwise nat_eq) };

    ghost laws = { Prim.search (comparing, rules) };

    fn eq(&self, other: &Text) -> bool {
        same_bytes(&self.bytes, &other.bytes)
    }
}

impl Eq for Text {
    ghost laws = { Prim.search (comparing, rules) };
}

/// A number that two others make, mostly another one where one of them differs.
#[inline(always)]
#[tactic(auto, unfolding(crate::specs::Marks::mixed))]
pub fn mixed(one: u64, other: u64) -> u64
    ensures { result ≡ mixed one other }
{
    one.wrapping_add(other.wrapping_mul(FACTOR))
}

/// A number that a text makes.
#[inline(always)]
pub fn text_mark(text: &Text) -> u64
    ensures { result ≡ text_mark text.now.bytes }
{
    mixed(front(&text.bytes), back(&text.bytes) as u64)
}
