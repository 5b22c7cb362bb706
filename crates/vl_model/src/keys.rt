ghost use Rattle.byteorder.specs.Endian.{big_number};
ghost use Rattle.std.specs.Prelude.{◌+◌, ◌≡◌, ◌≤◌, drop, length, min};
ghost use Rattle.vl_model.specs.Keys.{key_cmp};

use byteorder::{BigEndian, ByteOrder};
use std::cmp::Ordering;

/// How two keys stand to each other: by their first byte that differs, and else the shorter one comes
/// first.
pub fn key_order(a: &[u8], b: &[u8]) -> Ordering
    ensures { result ≡ key_cmp a.now b.now }
{
    let both = a.len().min(b.len());
    if 8 <= both {
        return long_order(a, b, both - 8);
    }
    if 4 <= both {
        return short_order(a, b, both - 4);
    }
    few_order(a, b, both)
}

// Compares by eight bytes at a time. The last eight that both have begin at `last`, and may overlap
// those before.
fn long_order(a: &[u8], b: &[u8], last: usize) -> Ordering
    requires { last + 8 ≡ min (length a.now) (length b.now) }
    ensures { result ≡ key_cmp a.now b.now }
{
    let mut at = 0;
    while at < last {
        let (x, y) = (word_at(a, at), word_at(b, at));
        if x != y {
            return x.cmp(&y);
        }
        at += 8;
    }
    let (x, y) = (word_at(a, last), word_at(b, last));
    if x != y {
        return x.cmp(&y);
    }
    a.len().cmp(&b.len())
}

// The same of four to eight bytes, by the first four and the last four.
fn short_order(a: &[u8], b: &[u8], last: usize) -> Ordering
    requires length { last + 4 ≡ min (length a.now) (length b.now) }
    requires overlap { last ≤ 4 }
    ensures { result ≡ key_cmp a.now b.now }
{
    let (x, y) = (half_at(a, 0), half_at(b, 0));
    if x != y {
        return x.cmp(&y);
    }
    let (x, y) = (half_at(a, last), half_at(b, last));
    if x != y {
        return x.cmp(&y);
    }
    a.len().cmp(&b.len())
}

// The same byte by byte.
fn few_order(a: &[u8], b: &[u8], both: usize) -> Ordering
    requires { both ≡ min (length a.now) (length b.now) }
    ensures { result ≡ key_cmp a.now b.now }
{
    for at in 0..both {
        if a[at] != b[at] {
            return a[at].cmp(&b[at]);
        }
    }
    a.len().cmp(&b.len())
}

// Eight bytes as a number, the first of them the highest.
fn word_at(bytes: &[u8], at: usize) -> u64
    requires { at + 8 ≤ length bytes.now }
    ensures { result ≡ big_number 8 (drop at bytes.now) }
{
    BigEndian::read_u64(&bytes[at..])
}

// And four.
fn half_at(bytes: &[u8], at: usize) -> u32
    requires { at + 4 ≤ length bytes.now }
    ensures { result ≡ big_number 4 (drop at bytes.now) }
{
    BigEndian::read_u32(&bytes[at..])
}
