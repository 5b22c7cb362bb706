use crate::locked::Locked;
use std::marker::Model;
use vl_disk::Disk;
use vl_turn::Token;

/// What a session had seen, to be sent to another one of its store.
#[derive(Drop)]
pub struct Note<D: Disk> {
    pub(crate) token: Token<Locked<D>>,
}

impl<D: Disk> Model for Note<D> {
    ghost use Rattle.vlstore.specs.Knowing.{IsNote, Noted};

    ghost Value = { Noted };

    ghost view = { λ n. record { store = n.token.table_id; seen = n.token.me.0.seen } };

    ghost invariant = { λ n. IsNote n.token };
}
