//! The grammar of script lines and of the words of the command line, and the text of answers.
#![tactic(auto)]

mod answer;
mod digits;
mod find;
mod generator;
mod laws;
mod limits;
mod line;
mod next;
mod numbers;
mod parse;
mod print;
mod summary;
mod text;
mod words;

pub use answer::{Answer, SegmentLine};
pub use find::find_byte;
pub use generator::Gen;
pub use laws::a_worked_benchmark;
pub use limits::{MAX_IDENT_BYTES, MAX_LINE_BYTES};
pub use line::{Ident, Line};
pub use next::Next;
pub use numbers::parse_number;
pub use parse::parse_line;
pub use print::{NUMBER_ROOM, print_answer, print_bad_line, print_rows};
pub use summary::{Summary, print_summary};
pub use text::{contents_text, counted_text, driven_text};
pub use words::{Command, command_in};
