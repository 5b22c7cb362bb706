//! The merge that waits for its install.
ghost use Rattle.std.specs.Prelude.{◌≡◌};
ghost use Rattle.std.specs.Option.{is_some};
ghost use Rattle.std.specs.Str.{bytes_eq};

use vl_compact::Job;
use vl_disk::{HeldFile, Writer};
use vl_script::Ident;

/// A merge that has all of its tables, and its name. The name stands for nothing else.
#[derive(Drop)]
pub struct Planned<V, H: HeldFile, W: Writer> {
    pub name: Ident,
    pub job: Job<V, H, W>,
}

impl<V, H: HeldFile, W: Writer> Planned<V, H, W> {
    pub fn is_named(&self, name: &[u8]) -> bool
        ensures { result ≡ bytes_eq name.now self.now.name }
    {
        name == self.name.as_slice()
    }
}
