//! A mark of an origin that a condition gives.
ghost use Rattle.std.specs.Prelude.{◌≡◌, IfOk};
ghost use Rattle.vlstore.specs.declared.locked.Origin.{Origin};

use crate::mark::{Mark, mark};
use std::alloc::{AllocError, Global};
use std::marker::Brand;

/// What is asked of an origin. A call at `Brand` picks it.
pub trait Asks {
    ghost use Rattle.vlstore.specs.declared.locked.Origin.{Origin};

    ghost suits: { Origin → Type 0 };
}

impl Asks for Brand {
    ghost suits = { λ _. Unit {0} };
}

// A mark of this origin.
fn mark_of(alloc: Global) -> Result<Mark, AllocError>
    ghost origin: { Origin }
    ensures { IfOk result (λ m. m.me.0 ≡ origin) }
{
    mark::<Brand>(alloc)
}

/// A mark of an origin that suits. What a call picks is made of what is passed, and this one is made of what is
/// required: so its proof is written by hand.
pub fn mark_some<W: Asks>(alloc: Global) -> Result<Mark, AllocError>
    requires { (origin : Origin) × W.suits origin }
    ensures { IfOk result (λ m. W.suits m.me.0) }
{
    mark_of(alloc)
}
