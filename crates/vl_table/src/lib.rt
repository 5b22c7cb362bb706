//! Tables: entries in order, in a file that never changes, written, opened, searched, and gone over both ways.
//! docs/FORMATS.md has their bytes.
//!
//! `TableWriter` gives a table's bytes piece by piece, from entries in their order.
//!
//! A look-up asks the table's range and its filter first, and reads nothing where one of them says no. Else it reads blocks
//! through a `BlockReader`, which keeps some of them and has tested each, and halves in them. It wants no memory.
//!
//! A `TableCursor` begins by the index, and reads each block that may have keys of its interval once, into memory of its own:
//! many cursors go forward in turn, and none drives out another's block. An entry is decoded and copied when it is given.
#![tactic(auto)]

mod begin;
mod block;
mod block_order;
mod block_reader;
mod body;
mod cursor;
mod entries;
mod fault;
mod laws;
mod open;
mod open_block;
mod part;
mod read;
mod slot;
mod span_blocks;
mod stretch;
mod table;
mod tested;
mod writer;

pub use block_order::first_out_of_order;
pub use block_reader::{BlockReader, KEPT_BLOCKS};
pub use body::{
    BlockPlace, BodyRef, EntryRef, Footer, FooterHead, Found, FoundBody, FramePlace, ShortValue,
    TableShape, ValueRef,
};
pub use cursor::TableCursor;
pub use laws::{
    a_worked_table, blocks_have_what_stands, bodies_are_read_in_one_way,
    tables_are_read_in_one_way, tables_have_their_length, true_tables_are_in_order,
    true_tables_are_read, true_tables_have_no_bad_block,
};
pub use table::Table;
pub use writer::{AddFail, TableWriter, Tail, WriteFail, tables_have_room};
