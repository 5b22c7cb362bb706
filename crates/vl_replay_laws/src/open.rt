//! What the names of a script stand for.
ghost use Rattle.std.specs.Prelude.{◌≡◌, ◌++◌, ◌∷◌, [], OnOk};
ghost use Rattle.std.specs.Option.{is_some};
ghost use Rattle.std.specs.Str.{bytes_eq};
ghost use Rattle.vl_replay_laws.specs.Standing.{AreOnce, IsTaken, open_in, place_of};

use std::alloc::AllocFailed;
use vl_disk::HeldFile;
use vl_reads::{Txn, View};
use vl_script::Ident;

/// What a name stands for.
#[derive(Drop)]
pub enum Thing<H: HeldFile, R> {
    Transaction(Txn<H, R>),
    View(View<H, R>),
}

/// A name in use, and what it stands for.
#[derive(Drop)]
pub struct Open<H: HeldFile, R> {
    pub name: Ident,
    pub thing: Thing<H, R>,
}

impl<H: HeldFile, R> Open<H, R> {
    pub fn is_named(&self, name: &[u8]) -> bool
        ensures { result ≡ bytes_eq name.now self.now.name }
    {
        name == self.name.as_slice()
    }
}

/// Where a name stands.
pub fn place<H: HeldFile, R>(opens: &[Open<H, R>], name: &[u8]) -> Option<usize>
    ensures { result ≡ place_of name.now opens.now }
{
    let mut at = 0;
    'opens: while at < opens.len() {
        if opens[at].is_named(name) {
            return Some(at);
        }
        at += 1;
    }
    None
}

/// Whether the name is in use.
pub fn is_taken<H: HeldFile, R>(opens: &[Open<H, R>], name: &[u8]) -> bool
    ensures { result ≡ is_some (open_in opens.now name.now) }
{
    place(opens, name).is_some()
}

/// What a name stands for, taken out: it is free then.
pub fn take_out<H: HeldFile, R>(opens: &mut Vec<Open<H, R>>, name: &[u8]) -> Option<Thing<H, R>>
    ensures { AreOnce opens.old.items → IsTaken opens.old.items opens.new.items name.now result }
{
    match place(opens, name) {
        None => None,
        Some(at) => Some(opens.remove(at).thing),
    }
}

/// Lets a free name stand for something.
pub fn put<H: HeldFile, R>(
    opens: &mut Vec<Open<H, R>>,
    name: Ident,
    thing: Thing<H, R>,
) -> Result<(), AllocFailed<Open<H, R>>>
    ensures { OnOk result (opens.new.items ≡ opens.old.items ++ (record { name = name; thing = thing }) ∷ []) }
{
    opens.push(Open { name, thing })
}
