//! Runs of bytes that do the same to a token, passed over sixteen at a time.
ghost use Rattle.std.specs.Prelude.{◌≡◌, ◌+◌, ◌≤◌, length, drop, map};
ghost use Rattle.std.specs.List.{prefix_len};
ghost use Rattle.std.specs.Char.{is_ascii_digit};
ghost use Rattle.std.specs.Simd.Lanes.{mask_l};
ghost use Rattle.json_text.specs.Json.{is_space};
ghost use Rattle.json_text.specs.String.{is_plain};
ghost use Rattle.json_token.specs.Runs.{is_not_plain_ascii, is_plain_ascii, is_not_plain, is_no_digit, is_no_space};

use std::simd::prelude::*;

#[inline(always)]
fn not_plain_ascii(v: u8x16) -> u64
    ensures { result ≡ mask_l (map is_not_plain_ascii v) }
{
    (v.simd_eq(u8x16::splat(b'"'))
        | v.simd_eq(u8x16::splat(b'\\'))
        | (v - u8x16::splat(0x20)).simd_ge(u8x16::splat(0x60))).to_bitmask()
}

#[inline(always)]
fn not_plain(v: u8x16) -> u64
    ensures { result ≡ mask_l (map is_not_plain v) }
{
    (v.simd_eq(u8x16::splat(b'"'))
        | v.simd_eq(u8x16::splat(b'\\'))
        | v.simd_lt(u8x16::splat(0x20))).to_bitmask()
}

#[inline(always)]
fn no_digits(v: u8x16) -> u64
    ensures { result ≡ mask_l (map is_no_digit v) }
{
    (v - u8x16::splat(b'0'))
        .simd_ge(u8x16::splat(10))
        .to_bitmask()
}

#[inline(always)]
fn no_spaces(v: u8x16) -> u64
    ensures { result ≡ mask_l (map is_no_space v) }
{
    (v.simd_ne(u8x16::splat(b' '))
        & v.simd_ne(u8x16::splat(b'\t'))
        & v.simd_ne(u8x16::splat(b'\n'))
        & v.simd_ne(u8x16::splat(b'\r'))).to_bitmask()
}

// Whether a character stands for itself in a string, or a byte of one does.
#[inline(always)]
fn is_plain(byte: u8) -> bool
    ensures { result ≡ is_plain byte }
{
    byte != b'"' && byte != b'\\' && byte >= 0x20
}

// Whether a byte of ASCII stands for itself in a string.
#[inline(always)]
fn is_plain_ascii(byte: u8) -> bool
    ensures { result ≡ is_plain_ascii byte }
{
    byte != b'"' && byte != b'\\' && byte >= 0x20 && byte < 0x80
}

#[inline(always)]
fn is_space(byte: u8) -> bool
    ensures { result ≡ is_space byte }
{
    matches!(byte, b' ' | b'\t' | b'\n' | b'\r')
}

#[inline(never)]
fn plain_ascii_end_slowly(bytes: &[u8], from: usize) -> usize
    requires { from ≤ length bytes.now }
    ensures { result ≡ from + prefix_len is_plain_ascii (drop from bytes.now) }
{
    let mut at = from;
    while at < bytes.len() && is_plain_ascii(bytes[at]) {
        at += 1;
    }
    at
}

/// Where the bytes of ASCII end that stand for themselves in a string.
#[inline(always)]
pub fn plain_ascii_end(bytes: &[u8], from: usize) -> usize
    requires { from ≤ length bytes.now }
    ensures value { result ≡ from + prefix_len is_plain_ascii (drop from bytes.now) }
    ensures bound { result ≤ length bytes.now }
{
    let mut at = from;
    while bytes.len() - at >= 16 {
        let found = not_plain_ascii(u8x16::from_slice(&bytes[at..]));
        if found != 0 {
            return at + found.trailing_zeros() as usize;
        }
        at += 16;
    }
    plain_ascii_end_slowly(bytes, at)
}

#[inline(never)]
fn plain_end_slowly(bytes: &[u8], from: usize) -> usize
    requires { from ≤ length bytes.now }
    ensures { result ≡ from + prefix_len is_plain (drop from bytes.now) }
{
    let mut at = from;
    while at < bytes.len() && is_plain(bytes[at]) {
        at += 1;
    }
    at
}

/// Where a quotation mark, a backslash or a control character ends a run, whatever its other bytes are.
#[inline(always)]
pub fn plain_end(bytes: &[u8], from: usize) -> usize
    requires { from ≤ length bytes.now }
    ensures value { result ≡ from + prefix_len is_plain (drop from bytes.now) }
    ensures bound { result ≤ length bytes.now }
{
    let mut at = from;
    while bytes.len() - at >= 16 {
        let found = not_plain(u8x16::from_slice(&bytes[at..]));
        if found != 0 {
            return at + found.trailing_zeros() as usize;
        }
        at += 16;
    }
    plain_end_slowly(bytes, at)
}

#[inline(never)]
fn digits_end_slowly(bytes: &[u8], from: usize) -> usize
    requires { from ≤ length bytes.now }
    ensures { result ≡ from + prefix_len is_ascii_digit (drop from bytes.now) }
{
    let mut at = from;
    while at < bytes.len() && bytes[at].is_ascii_digit() {
        at += 1;
    }
    at
}

/// Where a run of digits ends.
#[inline(always)]
pub fn digits_end(bytes: &[u8], from: usize) -> usize
    requires { from ≤ length bytes.now }
    ensures value { result ≡ from + prefix_len is_ascii_digit (drop from bytes.now) }
    ensures bound { result ≤ length bytes.now }
{
    let mut at = from;
    while bytes.len() - at >= 16 {
        let found = no_digits(u8x16::from_slice(&bytes[at..]));
        if found != 0 {
            return at + found.trailing_zeros() as usize;
        }
        at += 16;
    }
    digits_end_slowly(bytes, at)
}

#[inline(never)]
fn space_end_slowly(bytes: &[u8], from: usize) -> usize
    requires { from ≤ length bytes.now }
    ensures { result ≡ from + prefix_len is_space (drop from bytes.now) }
{
    let mut at = from;
    while at < bytes.len() && is_space(bytes[at]) {
        at += 1;
    }
    at
}

/// Where a run of white space ends.
#[inline(always)]
pub fn space_end(bytes: &[u8], from: usize) -> usize
    requires { from ≤ length bytes.now }
    ensures value { result ≡ from + prefix_len is_space (drop from bytes.now) }
    ensures bound { result ≤ length bytes.now }
{
    let mut at = from;
    while bytes.len() - at >= 16 {
        let found = no_spaces(u8x16::from_slice(&bytes[at..]));
        if found != 0 {
            return at + found.trailing_zeros() as usize;
        }
        at += 16;
    }
    space_end_slowly(bytes, at)
}
