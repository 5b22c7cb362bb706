//! Input and output as the program sees them: sources that give bytes and sinks that take them.
#![tactic(auto)]

mod sink;
mod slice_source;
mod source;
mod std_sink;
mod std_source;
mod vec_sink;

pub use sink::Sink;
pub use slice_source::SliceSource;
pub use source::Source;
pub use std_sink::StdSink;
pub use std_source::StdSource;
pub use vec_sink::VecSink;
