// Shops whose calls are counted.
ghost use Rattle.std.specs.Prelude.{◌<◌, ◌∷◌, [], IfSome};
ghost use Rattle.vl_drive.specs.Clients.{AreNew};

use std::alloc::{AllocError, Global};
use std::sync::Wait;
use std::sync::atomic::{AtomicU64, Ordering};
use std::thread::Threads;
use vl_drive::{
    BeginFail, CommitFail, Done, Gate, Point, ReadFail, Shop, Shops, StepFail, Tally, drive,
};
use vl_model::Value;

// How often calls of a shop were answered, and which account was read last. Upkeep is counted in steps, of which
// a round has five in their order; one out of its place is a stray.
#[derive(Drop)]
pub(crate) struct Calls {
    pub(crate) last: AtomicU64,
    pub(crate) gets: AtomicU64,
    pub(crate) sets: AtomicU64,
    pub(crate) commits: AtomicU64,
    pub(crate) steps: AtomicU64,
    pub(crate) strays: AtomicU64,
}

impl Calls {
    pub(crate) fn new() -> Self {
        Calls {
            last: AtomicU64::new(0),
            gets: AtomicU64::new(0),
            sets: AtomicU64::new(0),
            commits: AtomicU64::new(0),
            steps: AtomicU64::new(0),
            strays: AtomicU64::new(0),
        }
    }

    // The account that was read last.
    pub(crate) fn last(&self) -> u8
        ensures { result < 64 }
    {
        (self.last.load(Ordering::SeqCst) % 64) as u8
    }

    // Whether a client stands in its turn where its gate has to be called: both reads were answered, and its writes
    // not yet; or its commit was.
    pub(crate) fn stand_at(&self, turn: u32, point: Point) -> bool {
        let turn = u64::from(turn);
        let ended = match point {
            Point::BeforeCommit => turn.saturating_sub(1),
            Point::AfterCommit => turn,
        };
        self.gets.load(Ordering::SeqCst) == 2 * turn
            && self.sets.load(Ordering::SeqCst) == 2 * ended
            && self.commits.load(Ordering::SeqCst) == ended
    }

    // The step with this place in a round was made.
    fn step(&self, place: u64) {
        if self.steps.load(Ordering::SeqCst) % 5 == place {
            self.steps.fetch_add(1, Ordering::SeqCst);
        } else {
            self.strays.fetch_add(1, Ordering::SeqCst);
        }
    }
}

// A shop, with what counts its calls.
#[derive(Drop)]
pub(crate) struct Watched<'a, S: Drop> {
    pub(crate) shop: S,
    pub(crate) calls: &'a Calls,
}

impl<S: Shop> Shop for Watched<'_, S> {
    type Txn = S::Txn;

    type Note = S::Note;

    ghost knows = { λ watched. S.knows watched.shop };

    ghost noted = { λ note. S.noted note };

    ghost ticket = { λ txn. S.ticket txn };

    ghost number = { λ txn. S.number txn };

    ghost writes = { λ txn. S.writes txn };

    ghost sees = { λ txn h reads. S.sees txn h reads };

    fn begin<R: Wait>(&mut self, rt: &R) -> Result<S::Txn, BeginFail> {
        self.shop.begin(rt)
    }

    fn get(&mut self, txn: &mut S::Txn, key: &[u8]) -> Result<Option<Value>, ReadFail> {
        let answer = self.shop.get(txn, key);
        if let [account] = key {
            self.calls.last.store(u64::from(*account), Ordering::SeqCst);
        }
        self.calls.gets.fetch_add(1, Ordering::SeqCst);
        answer
    }

    fn set(&mut self, txn: &mut S::Txn, key: &[u8], value: &[u8]) -> Result<(), AllocError> {
        let answer = self.shop.set(txn, key, value);
        self.calls.sets.fetch_add(1, Ordering::SeqCst);
        answer
    }

    fn commit<R: Wait>(&mut self, rt: &R, txn: S::Txn) -> Result<Done, CommitFail<S::Txn>> {
        let answer = self.shop.commit(rt, txn);
        self.calls.commits.fetch_add(1, Ordering::SeqCst);
        answer
    }

    fn forget<R: Wait>(&mut self, rt: &R, txn: S::Txn) {
        self.shop.forget(rt, txn);
    }

    fn rotate<R: Wait>(&mut self, rt: &R) -> Result<(), StepFail> {
        self.calls.step(0);
        self.shop.rotate(rt)
    }

    fn flush<R: Wait>(&mut self, rt: &R) -> Result<(), StepFail> {
        self.calls.step(1);
        self.shop.flush(rt)
    }

    fn merge<R: Wait>(&mut self, rt: &R, alloc: Global) -> Result<(), StepFail> {
        self.calls.step(2);
        self.shop.merge(rt, alloc)
    }

    fn collect<R: Wait>(&mut self, rt: &R, alloc: Global, percent: u8) -> Result<(), StepFail> {
        // With less garbage than half of a log it is no step of a round.
        self.calls.step(if percent == 50 { 3 } else { 5 });
        self.shop.collect(rt, alloc, percent)
    }

    fn sweep<R: Wait>(&mut self, rt: &R) -> Result<(), StepFail> {
        self.calls.step(4);
        self.shop.sweep(rt)
    }

    fn note(&mut self) -> Result<S::Note, AllocError> {
        self.shop.note()
    }

    fn meet(&mut self, note: S::Note) {
        self.shop.meet(note);
    }
}

// Three sessions of a new store.
pub(crate) fn three<T: Shops>(alloc: Global) -> Option<(T, T::Shop, T::Shop, T::Shop)>
    ensures { IfSome result (λ r. AreNew (T.Shop.knows r.1 ∷ T.Shop.knows r.2 ∷ [])) }
{
    let Ok((store, shops)) = T::open(alloc, 3) else {
        return None;
    };
    let mut shops = shops;
    let other = shops.pop()?;
    let keeper = shops.pop()?;
    let client = shops.pop()?;
    Some((store, client, keeper, other))
}

// So many turns of one client, with the upkeep beside it.
pub(crate) fn one_client<R: Threads + Wait + Sync, S: Shop + Send, G: Gate + Sync>(
    rt: &R,
    alloc: Global,
    client: Watched<'_, S>,
    keeper: Watched<'_, S>,
    gate: &G,
    txns: u32,
) -> Option<Tally>
    requires { AreNew (S.knows client.shop ∷ S.knows keeper.shop ∷ []) }
{
    let mut shops = Vec::new(alloc);
    shops.push(client).ok()?;
    shops.push(keeper).ok()?;
    match drive(rt, alloc, shops, gate, txns, 7) {
        Ok((tally, _)) => Some(tally),
        Err(_) => None,
    }
}
