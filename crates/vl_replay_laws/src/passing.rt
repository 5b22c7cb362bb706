//! The pass that is open.
ghost use Rattle.std.specs.Prelude.{◌≡◌};
ghost use Rattle.std.specs.Str.{bytes_eq};

use vl_collect::{Batch, Pass};
use vl_script::Ident;

/// A pass over a log, its name, and the batch that waits for its move. The name stands for nothing else.
#[derive(Drop)]
pub struct Passing<V, H> {
    pub name: Ident,
    pub pass: Pass<V, H>,
    pub batch: Option<Batch>,
}

impl<V, H> Passing<V, H> {
    pub fn is_named(&self, name: &[u8]) -> bool
        ensures { result ≡ bytes_eq name.now self.now.name }
    {
        name == self.name.as_slice()
    }
}
