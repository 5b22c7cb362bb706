//! What was changed between two commits, as a stream of bytes, and how it is read.
//!
//! A stream has 16 bytes of header: `VBAK`, the format 1 in four bytes, and the number since which it tells in eight. Behind
//! it stand frames as a file with number 0 has them: some records each, whose keys rise over all the frames, and last an end
//! that says up to which number it tells, and how many records it has. Nothing follows.
#![tactic(auto)]

mod batch;
mod fail;
mod fill;
mod frames;
mod laws;
mod packer;
mod read;
mod reader;

pub use batch::{Batch, MAX_BATCH_BYTES, MAX_BATCH_RECORDS};
pub use fail::StreamFail;
pub use laws::{
    a_backup_restores, a_load_may_be_made_again, a_stream_holds_its_records,
    an_input_is_read_in_one_way,
};
pub use packer::Packer;
pub use reader::StreamReader;
