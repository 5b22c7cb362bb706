//! Sessions as those ask for them who drive clients over a store.

mod answers;
mod calls;
mod collecting;
mod ends;
mod hand;
mod reopen;
mod sure;

ghost use Rattle.std.specs.Prelude.{◌≡◌, None, true};

use crate::session::Session;
use crate::unfailing::Unfailing;
pub use sure::{SureEngine, SureStore};

/// A session whose store's disk told its bytes when the store was made, and never fails; and the store wasn't halted
/// then. So none of its calls is answered by a fault.
#[derive(Drop)]
pub struct SureSession<D: Unfailing> {
    pub(crate) session: Session<D>,
    ghost tells: { session.tells ≡ true },
    ghost runs: { session.origin.layout.halted ≡ None },
}

impl<D: Unfailing> SureSession<D> {
    /// So is this session.
    pub fn new(session: Session<D>) -> Self
        requires tells { session.tells ≡ true }
        requires runs { session.origin.layout.halted ≡ None }
        ensures { result.session ≡ session }
    {
        SureSession { session }
    }

    /// The session itself.
    pub fn into_session(self) -> Session<D>
        ensures { result ≡ self.session }
    {
        self.session
    }
}
