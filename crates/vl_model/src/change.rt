ghost use Rattle.std.specs.Prelude.{◌≡◌, length};
ghost use Rattle.vl_model.specs.Keys.{value_bytes, value_tag};

use crate::Value;

/// What a commit does to a key that it names.
#[derive(Drop)]
pub enum Change {
    Set(Value),
    Delete,
}

impl Change {
    /// How many bytes of a value it has. A deletion has none.
    pub fn value_len(&self) -> usize
        ensures { result ≡ length (value_bytes self.now) }
    {
        match self {
            Change::Set(value) => value.len(),
            Change::Delete => 0,
        }
    }

    /// The tag of its value. A deletion has 0.
    pub fn tag(&self) -> u8
        ensures { result ≡ value_tag self.now }
    {
        match self {
            Change::Set(value) => value.tag,
            Change::Delete => 0,
        }
    }
}
