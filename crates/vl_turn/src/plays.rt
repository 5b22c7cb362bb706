// What the steps tell: one type for each kind of step, which `atomic_table` asks for. No value of
// them is made. `specs/Steps.antt` and `specs/Views.antt` have what they say.
ghost use Rattle.vl_turn.specs.Steps.{Takes, Enters, Gives, Loads, Numbers, Opens, Closes};
ghost use Rattle.vl_turn.specs.Views.{copied, joined, spent, disowned, dealt};

use crate::view::{Says, Standing, View};
use atomic_table::{Join, Play, Split};
use std::marker::PhantomData;

pub(crate) struct Take;

impl<T: Standing> Play<Option<T>, View<T, T::Entry>> for Take {
    ghost then = { λ _. Takes T.stands T.by };
}

pub(crate) struct Enter<W> {
    said: PhantomData<W>,
}

impl<T, E, W: Says<E>> Play<Option<T>, View<T, E>> for Enter<W> {
    ghost then = { λ _. Enters W.entry };
}

pub(crate) struct Give;

impl<T, E> Play<Option<T>, View<T, E>> for Give {
    ghost then = { λ _. Gives };
}

pub(crate) struct Load;

impl<T, E> Play<Option<T>, View<T, E>> for Load {
    ghost then = { λ _. Loads };
}

pub(crate) struct Number;

impl<T, E> Play<Option<T>, View<T, E>> for Number {
    ghost then = { λ _. Numbers };
}

pub(crate) struct Open;

impl<T, E> Play<Option<T>, View<T, E>> for Open {
    ghost then = { λ _. Opens };
}

pub(crate) struct Close;

impl<T, E> Play<Option<T>, View<T, E>> for Close {
    ghost then = { λ _. Closes };
}

pub(crate) struct Copied;

impl<T, E> Split<View<T, E>> for Copied {
    ghost left = { λ v. v };

    ghost right = { copied };
}

pub(crate) struct Dealt;

impl<T, E> Split<View<T, E>> for Dealt {
    ghost left = { disowned };

    ghost right = { dealt };
}

pub(crate) struct Both;

impl<T, E> Join<View<T, E>> for Both {
    ghost both = { joined };

    ghost spent = { spent };
}
