// One session commits in its thread, and another one sees it behind its note.
ghost use Rattle.std.specs.Prelude.{◌≡◌, IfSome};
ghost use Rattle.vlstore.specs.Stores.{AreFirst};

use crate::client::{Client, told};
use crate::folder::{disk_of, free_folder, gone};
use std::alloc::Global;
use std::sync::Wait;
use std::test::Fail;
use std::thread::Threads;
use vlstore::{Done, Engine, Note, Session, Silent, Store};

const KEY: &[u8] = &[0x61];

const VALUE: &[u8] = &[1];

const ROOM: u64 = 20_000;

impl<D: Silent> Client for Session<D> {
    type Note = Note<D>;

    ghost store = { λ session. session.store };

    ghost noted = { λ note. note.store };

    fn number<R: Wait>(&mut self, rt: &R) -> u64
        ensures { self.new.store ≡ self.old.store }
    {
        Session::number(self, rt)
    }

    fn send<R: Wait>(&mut self, rt: &R) -> Option<Note<D>>
        ensures store { self.new.store ≡ self.old.store }
        ensures note { IfSome result (λ note. note.store ≡ self.old.store) }
    {
        match commits(rt, self) {
            Some(true) => self.note().ok(),
            _ => None,
        }
    }

    fn receive<R: Wait>(&mut self, rt: &R, note: Note<D>) -> Option<(u64, bool)>
        requires { note.store ≡ self.old.store }
        ensures { self.new.store ≡ self.old.store }
    {
        self.meet(note);
        reads(rt, self)
    }
}

fn commits<D: Silent, R: Wait>(rt: &R, session: &mut Session<D>) -> Option<bool>
    ensures { session.new.store ≡ session.old.store }
{
    let mut txn = session.begin(rt).ok()?;
    if txn.set(KEY, VALUE).is_err() {
        session.forget(rt, txn);
        return None;
    }
    Some(matches!(session.commit(rt, txn), Ok(Done::At(1))))
}

fn reads<D: Silent, R: Wait>(rt: &R, session: &mut Session<D>) -> Option<(u64, bool)>
    ensures { session.new.store ≡ session.old.store }
{
    let mut view = session.view(rt).ok()?;
    let number = view.number();
    let found = match view.get(KEY) {
        Ok(Some(value)) => value.as_slice() == VALUE,
        _ => false,
    };
    session.release(rt, view);
    Some((number, found))
}

fn two_of<D: Silent>(
    store: &Store<D>,
    sessions: Vec<Session<D>>,
) -> Option<(Session<D>, Session<D>)>
    requires { AreFirst store.now 0 sessions.items }
    ensures { IfSome result (λ pair. (pair.0.store ≡ store.now.store) × (pair.1.store ≡ store.now.store)) }
{
    let mut sessions = sessions.into_iter();
    let one = sessions.next()?;
    let two = sessions.next()?;
    Some((one, two))
}

fn closes<D: Silent, R: Wait>(
    rt: &R,
    alloc: Global,
    store: Store<D>,
    one: Session<D>,
    two: Session<D>,
) -> Option<Engine<D>>
    requires count { store.session ≡ 2 }
    requires one { one.store ≡ store.store }
    requires two { two.store ≡ store.store }
{
    let sessions = vec![in alloc; one, two].ok()?;
    Some(store.close(rt, sessions))
}

// What the second session reads behind the note of the first, and the number of the engine that the store leaves.
fn exchange<D: Silent + Send, R: Wait + Threads + Sync>(
    rt: &R,
    alloc: Global,
    disk: D,
) -> Option<(u64, bool, u64)>
where
    D::Held: Send + Sync,
    D::Reader: Send,
    D::Writer: Send,
{
    let (store, sessions) = Store::open(alloc, disk, ROOM, 2).ok()?;
    let (one, two) = two_of(&store, sessions)?;
    let (one, two, (number, found)) = told(rt, one, two)?;
    let engine = closes(rt, alloc, store, one, two)?;
    Some((number, found, engine.number()))
}

#[test]
fn a_note_brings_a_commit(rt: HostRuntime) -> Result<(), Fail> {
    let path = free_folder(&rt, "notes")?;
    let read = exchange(&rt, rt.alloc(), disk_of(&rt, &path)?);
    gone(&rt, path)?;
    assert!(&rt; read == Some((1, true, 1)));
    Ok(())
}
