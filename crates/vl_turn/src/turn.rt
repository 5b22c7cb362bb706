ghost use Rattle.std.specs.Prelude.{◌≡◌};
ghost use Rattle.std.specs.Borrow.{sem};

use crate::rule::Token;
use crate::view::Standing;

/// A turn under the lock, with the value. It is to be given back: where it isn't, nobody has a turn
/// any more.
pub struct Turn<'a, T: Standing> {
    pub value: T,
    pub token: &'a mut Token<T>,
}

impl<T: Standing> Turn<'_, T> {
    ghost use Rattle.vl_turn.specs.Lending.{LendsValue};

    /// The value.
    pub fn value(&mut self) -> &mut T
        ensures* writes_back { sem 𝓛 (LendsValue T.row T.Entry.row self.entry result) }
        ensures value { result.now ≡ self.old.value }
    {
        &mut self.value
    }
}
