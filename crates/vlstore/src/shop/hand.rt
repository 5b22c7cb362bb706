//! All sessions of a store as shops, and back again.
ghost use Rattle.std.specs.Prelude.{◌≡◌, IfOk, map};
ghost use Rattle.vlstore.specs.Shops.{AreSure, session_of};

use super::SureSession;
use crate::session::Session;
use crate::unfailing::Unfailing;
use std::alloc::{AllocError, Global};

// Each session as a shop, in their order.
pub(super) fn all_sure<D: Unfailing + Drop>(
    alloc: Global,
    sessions: Vec<Session<D>>,
) -> Result<Vec<SureSession<D>>, AllocError>
    requires each { AreSure sessions.items }
    ensures { IfOk result (λ shops. map session_of shops.items ≡ sessions.items) }
{
    let mut shops = Vec::with_capacity(alloc, sessions.len())?;
    for session in sessions {
        let shop = SureSession::new(session);
        shops.push(shop)?;
    }
    Ok(shops)
}

// The sessions of all shops, in their order.
pub(super) fn all_sessions<D: Unfailing + Drop>(
    alloc: Global,
    shops: Vec<SureSession<D>>,
) -> Result<Vec<Session<D>>, AllocError>
    ensures { IfOk result (λ sessions. sessions.items ≡ map session_of shops.items) }
{
    let mut sessions = Vec::with_capacity(alloc, shops.len())?;
    for shop in shops {
        let session = shop.into_session();
        sessions.push(session)?;
    }
    Ok(sessions)
}
