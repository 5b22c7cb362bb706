//! A value of no bytes, in which a proof keeps what an engine was when its store was made.
ghost use Rattle.std.specs.Prelude.{◌≡◌, IfOk};

use crate::locked::Origin;
use atomic_table::{Seat, Table, TableRule};
use std::alloc::{AllocError, Global};
use std::marker::{Brand, PhantomData};

/// What is kept. A call at `Brand` picks it.
pub trait Starts {
    ghost use Rattle.vlstore.specs.declared.locked.Origin.{Origin};

    ghost origin: { Origin };
}

impl Starts for Brand {
    ghost use Rattle.std.specs.Prelude.{[]};
    ghost use Rattle.vlstore.specs.Lists.{new_origin};

    ghost origin = { new_origin };
}

/// It has no bytes.
pub type Mark = Seat<(), Origin>;

struct Marks<W> {
    origin: PhantomData<W>,
}

impl<W: Starts> TableRule<(), Origin, ()> for Marks<W> {
    ghost holds = { λ _ _. Unit {0} };

    ghost first = { λ _. W.origin };
}

/// It takes memory only until it returns.
pub fn mark<W: Starts>(alloc: Global) -> Result<Mark, AllocError>
    ensures { IfOk result (λ m. m.me.0 ≡ W.origin) }
{
    let (_table, mark) = Table::<(), Origin, (), Marks<W>, Global>::of_words(alloc, &[], &())?;
    Ok(mark)
}
