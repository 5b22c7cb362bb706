//! How a block's body is read. A body that isn't a block's to its last byte is none, and so is one that is too long. Only
//! the order of its entries may be left to an earlier test.

ghost use Rattle.std.specs.Prelude.{◌↔◌, ◌+◌, ◌≤◌, List, Option, IfNone, IfSome, IsTrue, drop, length, take};
ghost use Rattle.std.specs.Option.{option_map};
ghost use Rattle.vl_model.specs.declared.entry.Entry.{Entry};
ghost use Rattle.vl_table.specs.body.Blocks.{SpellsBlock, SpellsWalked, walked};
ghost use Rattle.vl_table.specs.body.Entries.{entry_of};
ghost use Rattle.vl_table.specs.body.Lists.{IsNext, IsRun};
ghost use Rattle.vl_table.specs.body.Starts.{AreStarts};

use crate::body::entry_ref::EntryRef;
use crate::body::take::take_entry;
use vl_frame::take_u32;
use vl_model::place_order;

/// The longest body of a block. No store writes a longer one, and none is read.
pub const MAX_BODY_BYTES: usize = 4177;

/// So many entries a block has at most: an entry has at least 12 bytes, and their count 4.
pub const MAX_BLOCK_ENTRIES: usize = 347;

/// Finds where the entries of a block's body begin, in the bytes behind their count. It gives how many there are, and puts as
/// many places to the front of `starts`; None where the body isn't a block's. With `tested` the order of the entries isn't
/// looked at: who says so knows that the body is a block's, or takes them in whatever order they stand.
pub fn find_starts(format: u32, body: &[u8], tested: bool, starts: &mut [u16]) -> Option<usize>
    requires { MAX_BLOCK_ENTRIES ≤ length starts.old }
    ensures found { IfSome result (λ count. (es : List Entry) × SpellsWalked tested format body.now es
        × AreStarts format (drop 4 body.now) (take count starts.new) es) }
    ensures none { IfNone result ((es : List Entry) → SpellsBlock format body.now es → ⊥) }
    ensures within { IfSome result (λ count. count ≤ MAX_BLOCK_ENTRIES) }
{
    if body.len() > MAX_BODY_BYTES {
        return None;
    }
    let (count, bytes) = take_u32(body)?;
    if !are_entries(format, count, bytes, tested, starts) {
        return None;
    }
    Some(count as usize)
}

// Whether these bytes are so many entries, one behind the other, in order, if that wasn't tested before. Where they are, it
// finds where each begins.
fn are_entries(format: u32, count: u32, bytes: &[u8], tested: bool, starts: &mut [u16]) -> bool
    requires room { MAX_BLOCK_ENTRIES ≤ length starts.old }
    requires short { length bytes.now + 4 ≤ MAX_BODY_BYTES }
    ensures found { IsTrue result → (es : List Entry) × IsRun (walked tested format) bytes.now count es
        × AreStarts format bytes.now (take count starts.new) es }
    ensures few { IsTrue result → count ≤ MAX_BLOCK_ENTRIES }
    ensures whole { (es : List Entry) → IsRun (walked tested format) bytes.now count es → IsTrue result }
{
    let mut last: Option<EntryRef> = None;
    let mut rest = bytes;
    for i in 0..count {
        match take_entry(format, rest) {
            None => return false,
            Some((entry, after)) => {
                if !is_next(format, tested, &last, &entry) {
                    return false;
                }
                starts[i as usize] = (bytes.len() - rest.len()) as u16;
                last = Some(entry);
                rest = after;
            }
        }
    }
    rest.is_empty()
}

// Whether an entry comes behind the last one, where there is one, if that wasn't tested before.
fn is_next(format: u32, tested: bool, last: &Option<EntryRef>, entry: &EntryRef) -> bool
    ensures { IsTrue result ↔ IsNext (walked tested format) (option_map entry_of last.now) (entry_of entry.now) }
{
    if tested {
        return true;
    }
    match last {
        None => true,
        Some(last) => place_order(&last.place(), &entry.place()).is_lt(),
    }
}
