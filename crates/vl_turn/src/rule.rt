// The rule of the lock, which each step keeps. `specs/Rule.antt` says it.
ghost use Rattle.vl_turn.specs.Views.{root};
ghost use Rattle.vl_turn.specs.Rule.{Kept};

use crate::view::{Standing, View};
use atomic_table::{Seat, TableRule};
use std::snapshot::Snapshot;

/// The rule. It reads the value with which the lock was made.
pub(crate) struct Law;

impl<T: Standing> TableRule<Option<T>, View<T, T::Entry>, Snapshot<T>> for Law {
    ghost holds = { λ key. Kept (T.stands key.value) T.by key.value };

    ghost first = { λ key. root key.value };
}

/// What one thread steps with: it knows a beginning of the list. It has no bytes.
pub type Token<T> = Seat<Option<T>, View<T, <T as Standing>::Entry>>;
