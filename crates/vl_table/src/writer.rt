//! Tables, written: `TableWriter` gives the bytes of one piece by piece, and at its end its shape (`Tail`). docs/FORMATS.md
//! lists the frames, whose bodies `body` spells and reads.
//!
//! An entry takes the same time however many there are, but for the search of a segment's sum in a map. What is held grows
//! with a table by 16 bytes a key for the filter, 12 and a last key for each closed block, and a sum for each segment.

mod add_fail;
mod block_writer;
mod blocks_writer;
mod entry;
mod finish;
mod footer;
mod framed;
mod index;
mod keys;
mod lawful;
mod laws;
mod numbers;
mod point_sums;
mod pointers;
mod points;
mod summary;
mod table_writer;
mod tail;
mod write_fail;

pub use add_fail::AddFail;
pub use laws::tables_have_room;
pub use table_writer::TableWriter;
pub use tail::Tail;
pub use write_fail::WriteFail;
