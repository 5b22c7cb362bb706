// Two clients of one store, each in a thread of its own: what one commits, the other reads behind its note.
ghost use Rattle.atomic_table.specs.Seated.{TableId};
ghost use Rattle.std.specs.Prelude.{◌≡◌, IfSome};

use std::sync::Wait;
use std::thread::{Threads, join};

/// A session, as it is used here.
pub trait Client: Drop {
    type Note: Drop;

    /// Its store.
    ghost store: { Self → TableId };

    /// The store that a note is of.
    ghost noted: { Self.Note → TableId };

    /// The last commit's number.
    fn number<R: Wait>(&mut self, rt: &R) -> u64
        ensures { store self.new ≡ store self.old };

    /// Makes the first commit, and notes what was seen then.
    fn send<R: Wait>(&mut self, rt: &R) -> Option<Self::Note>
        ensures store { store self.new ≡ store self.old }
        ensures note { IfSome result (λ note. noted note ≡ store self.old) };

    /// The number of a view that begins behind the note, and whether it reads what was committed.
    fn receive<R: Wait>(&mut self, rt: &R, note: Self::Note) -> Option<(u64, bool)>
        requires { noted note ≡ store self.old }
        ensures { store self.new ≡ store self.old };
}

fn sent<C: Client, R: Wait>(rt: &R, mut client: C) -> (C, Option<C::Note>)
    ensures store { C.store result.0 ≡ C.store client }
    ensures note { IfSome result.1 (λ note. C.noted note ≡ C.store client) }
{
    let note = client.send(rt);
    (client, note)
}

fn received<C: Client, R: Wait>(rt: &R, mut client: C, note: C::Note) -> (C, Option<(u64, bool)>)
    requires { C.noted note ≡ C.store client }
    ensures { C.store result.0 ≡ C.store client }
{
    let read = client.receive(rt, note);
    (client, read)
}

fn looked<C: Client, R: Wait>(rt: &R, mut client: C) -> (C, u64)
    ensures { C.store result.0 ≡ C.store client }
{
    let number = client.number(rt);
    (client, number)
}

/// One client commits and sends a note, and the other meets it and reads. Each is in a thread of its own.
pub fn told<C: Client + Send, R: Wait + Threads + Sync>(
    rt: &R,
    one: C,
    two: C,
) -> Option<(C, C, (u64, bool))>
where
    C::Note: Send,
    requires { C.store two ≡ C.store one }
    ensures { IfSome result (λ r. (C.store r.0 ≡ C.store one) × (C.store r.1 ≡ C.store one)) }
{
    let ((one, note), (two, before)) = join(
        rt,
        move || -> (C, Option<C::Note>)
            ensures store { C.store result.0 ≡ C.store one }
            ensures note { IfSome result.1 (λ note. C.noted note ≡ C.store one) }
        { sent(rt, one) },
        move || -> (C, u64)
            ensures { C.store result.0 ≡ C.store two }
        { looked(rt, two) },
    );
    let note = note?;
    let ((one, after), (two, read)) = join(
        rt,
        move || -> (C, u64)
            ensures { C.store result.0 ≡ C.store one }
        { looked(rt, one) },
        move || -> (C, Option<(u64, bool)>)
            requires { C.noted note ≡ C.store two }
            ensures { C.store result.0 ≡ C.store two }
        { received(rt, two, note) },
    );
    let read = read?;
    if before > 1 || after != 1 {
        return None;
    }
    Some((one, two, read))
}
