//! Reads a script from a source, line by line.

mod buffer;
mod fail;
mod lines;

pub use buffer::Buffer;
pub use fail::InputFail;
pub use lines::read_line;
