//! Clients side by side, each in a thread of its own, and one more thread for the upkeep.
ghost use Rattle.std.specs.Prelude.{◌≡◌, ◌≤◌, ◌++◌, ◌+◌, ◌<◌, ◌^◌, ◌∷◌, [], ℕ, Err, IfErr, IfOk, Ok, length, map, true};
ghost use Rattle.std.specs.List.{AllByRecursion, AllZip};
ghost use Rattle.vl_drive.specs.Clients.{AreDriven, AreNew, HasOpened, IsNewAt, count_all};
ghost use Rattle.vl_drive.specs.Knowing.{GoesOn, Knows, Meets, noted_by};
ghost use Rattle.vl_drive.specs.Modest.{AreModest, IsModest};
ghost use Rattle.vl_drive.specs.Players.{AreReady, Gathers, HasActed, IsFew, IsStopped, LeavesModest, all_commits};
ghost use Rattle.vl_drive.specs.Players.{all_conflicts, commits_of, conflicts_of, is_done, last_of, shop_of};
ghost use Rattle.vl_drive.specs.Playing.{IsTrouble};
ghost use Rattle.vl_drive.specs.Steps.{is_ended, is_put};
ghost use Rattle.vl_drive.specs.declared.clients.Player.{Player};

use crate::client::{Score, play};
use crate::gate::Gate;
use crate::keeper::{keep_up, open_accounts};
use crate::shop::Shop;
use crate::transfer::seed_of;
use crate::trouble::{Cause, Trouble};
use std::alloc::{AllocError, Global};
use std::sync::Wait;
use std::thread;
use std::thread::Threads;

/// How many transfers of all clients were committed, and how many met a conflict.
#[derive(Clone, Copy)]
pub struct Tally {
    pub commits: u64,
    pub conflicts: u64,
}

/// Why clients came to no end.
#[derive(Drop)]
pub enum DriveFail<S: Drop> {
    NoMemory,
    Stopped { shops: Vec<S>, cause: Cause },
}

// A thread's shop, and what its turns came to. The one that keeps up the store takes none.
#[derive(Drop)]
pub(crate) struct Player<S: Drop> {
    pub(crate) shop: S,
    pub(crate) client: u32,
    pub(crate) keeps_up: bool,
    pub(crate) end: Result<Score, Trouble>,
}

/// Lets all shops but the last be clients: each takes so many turns, in a thread of its own. A turn moves an amount from
/// one of 64 accounts to another one, as a number says that is drawn from the seed and the client; it commits, or meets a
/// conflict, and isn't tried again. Before them the last shop gives each account 1,000, and beside them it goes as many
/// rounds of upkeep.
///
/// The shops are of one store, and none has made a step. It may wait for ever where its shops do, and where a log has no
/// room for one commit.
pub fn drive<R: Threads + Wait + Sync, S: Shop + Send, G: Gate + Sync>(
    rt: &R,
    alloc: Global,
    shops: Vec<S>,
    gate: &G,
    txns: u32,
    seed: u64,
) -> Result<(Tally, Vec<S>), DriveFail<S>>
    requires count { (2 ≤ length shops.items) × (length shops.items ≤ 64) }
    requires new { AreNew (map S.knows shops.items) }
    // The shops come back in their order. The last made the first commit. All others met a note of that
    // before their first step, and have taken their turns.
    ensures on { IfOk result (λ r. AllZip GoesOn (map S.knows shops.items) (map S.knows r.1.items)) }
    ensures driven { IfOk result (λ r. AreDriven seed txns (map S.knows r.1.items)) }
    ensures commits { IfOk result (λ r. r.0.commits ≡ count_all is_put (map S.knows r.1.items)) }
    ensures conflicts { IfOk result (λ r. r.0.conflicts ≡ count_all is_ended (map S.knows r.1.items)) }
    // Else the cause is one of the shops'. Few of their transactions live then, and they made few commits.
    ensures stopped { IfErr result (IsStopped S.knows (map S.knows shops.items)) }
    ensures modest { IfErr result (LeavesModest S.knows txns) }
{
    let mut shops = shops;
    let Some(mut keeper) = shops.pop() else {
        unreachable!()
    };
    match open_accounts(rt, &mut keeper) {
        Ok(()) => played(rt, alloc, shops, keeper, gate, txns, seed),
        Err(trouble) => Err(unopened(shops, keeper, trouble)),
    }
}

// All threads, behind the first commit.
fn played<R: Threads + Wait + Sync, S: Shop + Send, G: Gate + Sync>(
    rt: &R,
    alloc: Global,
    shops: Vec<S>,
    keeper: S,
    gate: &G,
    txns: u32,
    seed: u64,
) -> Result<(Tally, Vec<S>), DriveFail<S>>
    requires few { length shops.items < 64 }
    requires new { AllByRecursion (IsNewAt (S.knows keeper).store) (map S.knows shops.items) }
    requires opened { HasOpened (S.knows keeper).seen (S.knows keeper) }
    requires modest { IsModest 0 (S.knows keeper) }
    ensures on { (v : Knows) → GoesOn v (S.knows keeper)
        → IfOk result (λ r. AllZip GoesOn (map S.knows shops.items ++ v ∷ []) (map S.knows r.1.items)) }
    ensures driven { IfOk result (λ r. AreDriven seed txns (map S.knows r.1.items)) }
    ensures commits { IfOk result (λ r. r.0.commits ≡ count_all is_put (map S.knows r.1.items)) }
    ensures conflicts { IfOk result (λ r. r.0.conflicts ≡ count_all is_ended (map S.knows r.1.items)) }
    ensures stopped { (v : Knows) → GoesOn v (S.knows keeper)
        → IfErr result (IsStopped S.knows (map S.knows shops.items ++ v ∷ [])) }
    ensures modest { IfErr result (LeavesModest S.knows txns) }
{
    let Ok(mut players) = seated(alloc, shops, keeper) else {
        return Err(DriveFail::NoMemory);
    };
    let count = players.len();
    thread::for_each_mut(
        rt,
        players.as_mut_slice(),
        count,
        &|_, player: &mut Player<S>|
            ensures { HasActed S.knows txns seed player.entry.now player.exit.now }
        { act(rt, alloc, gate, txns, seed, player) },
    );
    gathered(alloc, players)
}

// The shops again, where there was no first commit.
fn unopened<S: Shop>(shops: Vec<S>, keeper: S, trouble: Trouble) -> DriveFail<S>
    ensures stopped { (v : Knows) → GoesOn v (S.knows keeper) → IsTrouble v (S.knows keeper) trouble
        → IsStopped S.knows (map S.knows shops.items ++ v ∷ []) result }
    ensures modest { (turns : ℕ) → AreModest turns (map S.knows shops.items) → IsModest turns (S.knows keeper)
        → LeavesModest S.knows turns result }
{
    let mut shops = shops;
    if shops.push(keeper).is_err() {
        return DriveFail::NoMemory;
    }
    match trouble {
        Trouble::NoMemory => DriveFail::NoMemory,
        Trouble::Stopped(cause) => DriveFail::Stopped { shops, cause },
    }
}

// Each shop with its number, and all have met a note of the first commit.
fn seated<S: Shop>(alloc: Global, shops: Vec<S>, keeper: S) -> Result<Vec<Player<S>>, AllocError>
    requires few { length shops.items < 64 }
    requires new { AllByRecursion (IsNewAt (S.knows keeper).store) (map S.knows shops.items) }
    requires opened { HasOpened (S.knows keeper).seen (S.knows keeper) }
    requires modest { IsModest 0 (S.knows keeper) }
    ensures ready { IfOk result (λ players. AreReady S.knows (map S.knows shops.items) (S.knows keeper) players.items) }
    ensures few { IfOk result (λ players. length players.items ≤ 64) }
{
    let mut keeper = keeper;
    let mut players = Vec::with_capacity(alloc, shops.len() + 1)?;
    let mut client = 0;
    for shop in shops {
        let met = introduced(shop, &mut keeper)?;
        let player = seat(met, client, false);
        players.push(player)?;
        client += 1;
    }
    let last = seat(keeper, client, true);
    players.push(last)?;
    Ok(players)
}

// The shop, which has met a note of all that the keeper has seen.
fn introduced<S: Shop>(shop: S, keeper: &mut S) -> Result<S, AllocError>
    requires store { (S.knows keeper.old).store ≡ (S.knows shop).store }
    ensures same { S.knows keeper.new ≡ S.knows keeper.old }
    ensures met { IfOk result (λ met.
        Meets (S.knows shop) (S.knows met) (noted_by (S.knows keeper.old))) }
{
    let mut shop = shop;
    let note = keeper.note()?;
    shop.meet(note);
    Ok(shop)
}

// A shop before its first turn.
fn seat<S: Shop>(shop: S, client: u32, keeps_up: bool) -> Player<S>
    ensures shop { result.shop ≡ shop }
    ensures client { result.client ≡ client }
    ensures keeps_up { result.keeps_up ≡ keeps_up }
{
    Player {
        shop,
        client,
        keeps_up,
        end: Ok(Score {
            commits: 0,
            conflicts: 0,
        }),
    }
}

// What a thread does.
fn act<R: Wait, S: Shop, G: Gate>(
    rt: &R,
    alloc: Global,
    gate: &G,
    txns: u32,
    seed: u64,
    player: &mut Player<S>,
)
    ensures { HasActed S.knows txns seed player.old player.new }
{
    let client = player.client;
    player.end = if player.keeps_up {
        keep_up(rt, alloc, &mut player.shop, txns)
    } else {
        play(
            rt,
            &mut player.shop,
            gate,
            client,
            txns,
            seed_of(seed, client),
        )
    };
}

// The shops again, and what they came to, where none had trouble.
fn gathered<S: Shop>(
    alloc: Global,
    players: Vec<Player<S>>,
) -> Result<(Tally, Vec<S>), DriveFail<S>>
    requires few { length players.items ≤ 64 }
    requires small { AllByRecursion IsFew players.items }
    ensures shops { IfOk result (λ r. r.1.items ≡ map shop_of players.items) }
    ensures done { IfOk result (λ r. AllByRecursion (λ (p : Player S). is_done p.end ≡ true) players.items) }
    ensures commits { IfOk result (λ r. r.0.commits ≡ all_commits players.items) }
    ensures conflicts { IfOk result (λ r. r.0.conflicts ≡ all_conflicts players.items) }
    ensures stopped { IfErr result (Gathers players.items) }
{
    let Ok(mut shops) = Vec::with_capacity(alloc, players.len()) else {
        return Err(DriveFail::NoMemory);
    };
    let mut trouble = None;
    let mut tally = Tally {
        commits: 0,
        conflicts: 0,
    };
    for player in players {
        let Player {
            shop,
            client: _,
            keeps_up: _,
            end,
        } = player;
        trouble = added(&mut tally, trouble, end);
        if shops.push(shop).is_err() {
            return Err(DriveFail::NoMemory);
        }
    }
    match trouble {
        None => Ok((tally, shops)),
        Some(Trouble::NoMemory) => Err(DriveFail::NoMemory),
        Some(Trouble::Stopped(cause)) => Err(DriveFail::Stopped { shops, cause }),
    }
}

// What one more came to is added, and the last trouble is kept.
fn added(
    tally: &mut Tally,
    trouble: Option<Trouble>,
    end: Result<Score, Trouble>,
) -> Option<Trouble>
    requires { tally.old.commits + commits_of end + (tally.old.conflicts + conflicts_of end) < 2 ^ 64 }
    ensures commits { tally.new.commits ≡ tally.old.commits + commits_of end }
    ensures conflicts { tally.new.conflicts ≡ tally.old.conflicts + conflicts_of end }
    ensures last { result ≡ last_of trouble end }
{
    match end {
        Ok(score) => {
            tally.commits += score.commits;
            tally.conflicts += score.conflicts;
            trouble
        }
        Err(other) => Some(other),
    }
}
