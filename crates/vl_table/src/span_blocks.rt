//! Which blocks a cursor over an interval of keys reads.

ghost use Rattle.std.specs.Prelude.{◌≡◌, ◌≤◌, true, length};
ghost use Rattle.std.specs.List.{prefix_len};
ghost use Rattle.vl_model.specs.Reads as reads;
ghost use Rattle.vl_table.specs.SpanBlocks as spans;

use crate::body::{BlockPlace, TableShape};
use crate::stretch::Stretch;
use vl_model::{Span, key_order};

/// The blocks of a table that may have keys of an interval: none where it begins above it.
pub fn blocks_in(shape: &TableShape, span: &Span) -> Stretch
    ensures exact { spans.rises_over span.now shape.now.blocks.items ≡ true → result ≡ spans.blocks_in span.now shape.now }
    ensures within { result.end ≤ length shape.now.blocks.items }
{
    if !is_up_to(span, shape.footer.first.as_slice()) {
        return Stretch { first: 0, end: 0 };
    }
    blocks_of(&shape.blocks, span)
}

// Those that an index names, found by halving.
fn blocks_of(blocks: &[BlockPlace], span: &Span) -> Stretch
    ensures exact { spans.rises_over span.now blocks.now ≡ true → result ≡ spans.blocks_of span.now blocks.now }
    ensures within { result.end ≤ length blocks.now }
{
    let end = end_in(blocks, span);
    Stretch {
        first: first_in(blocks, span),
        end: blocks.len().min(end + 1),
    }
}

// How many blocks end before an interval.
fn first_in(blocks: &[BlockPlace], span: &Span) -> usize
    ensures { spans.is_parted (spans.ends_before span.now) blocks.now ≡ true
        → result ≡ prefix_len (spans.ends_before span.now) blocks.now }
{
    blocks.partition_point(|block| !is_from(span, block.last.as_slice()))
}

// How many blocks don't end above it.
fn end_in(blocks: &[BlockPlace], span: &Span) -> usize
    ensures end { spans.is_parted (spans.ends_within span.now) blocks.now ≡ true
        → result ≡ prefix_len (spans.ends_within span.now) blocks.now }
    ensures within { result ≤ length blocks.now }
{
    blocks.partition_point(|block| is_up_to(span, block.last.as_slice()))
}

/// Whether a key is in an interval.
pub fn is_in_span(span: &Span, key: &[u8]) -> bool
    ensures { result ≡ reads.is_in_span span.now key.now }
{
    is_from(span, key) && is_up_to(span, key)
}

/// Whether it isn't below the interval.
pub fn is_from(span: &Span, key: &[u8]) -> bool
    ensures { result ≡ reads.is_from span.now.lo key.now }
{
    match &span.lo {
        Some(low) => !key_order(key, low.as_slice()).is_lt(),
        None => true,
    }
}

/// Whether it isn't above the interval.
pub fn is_up_to(span: &Span, key: &[u8]) -> bool
    ensures { result ≡ reads.is_up_to span.now.hi span.now.closed key.now }
{
    match &span.hi {
        Some(high) if span.closed => !key_order(high.as_slice(), key).is_lt(),
        Some(high) => key_order(key, high.as_slice()).is_lt(),
        None => true,
    }
}
