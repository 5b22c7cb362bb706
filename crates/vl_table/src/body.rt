//! What the frames of tables say: blocks of entries, the index that finds blocks, and the footer, each as the body of a frame.
//! docs/FORMATS.md lists them. Each body spells a list of items behind their count: a kind of item says how one is spelled
//! (`Spelling`), and its reader takes them one after the other (`SoFar`).
//!
//! A body of the grammar is read as exactly what it spells, and any other as nothing; only the order of a block's entries may
//! be left to an earlier test. The bytes may be scanned as they lie there; only what is handed out on its own is copied.

mod block;
mod entry_ref;
mod footer;
mod footer_head;
mod formats;
mod found;
mod index;
mod keys;
mod pointers;
mod points;
mod shape;
mod short_value;
mod take;

pub use block::{MAX_BLOCK_ENTRIES, MAX_BODY_BYTES, find_starts};
pub use entry_ref::{BodyRef, EntryRef, ValueRef};
pub use footer::{Footer, read_footer};
pub use footer_head::{FooterHead, FramePlace};
pub use found::{Found, FoundBody};
pub use index::{BlockPlace, read_index};
pub use shape::TableShape;
pub use short_value::ShortValue;
pub use take::{FAR, GONE, INLINE, entry_at};
