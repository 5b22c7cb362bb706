ghost use Rattle.std.specs.Prelude.{◌≡◌, ◌≤◌, ◌<◌, ◌+◌, ◌↔◌, ℕ, List, [], length, None, IfOk, OnErr, vec_len};
ghost use Rattle.std.specs.FinMap.{entries};
ghost use Rattle.vl_model.specs.Conflicts.{first_conflict};
ghost use Rattle.vl_model.specs.History.{History, last_number, with_commit};
ghost use Rattle.vl_model.specs.Keys.{Writes};
ghost use Rattle.vl_model.specs.Limits.{max_commit_number, max_live};
ghost use Rattle.vl_model.specs.Notes.{AreNotesOf};
ghost use Rattle.vl_model.specs.Reads.{Read};
ghost use Rattle.vl_conflict.specs.Recent.{Remembers};
ghost use Rattle.vl_oracle.specs.LiveTickets.{advanced, begun, ended, free_ticket};
ghost use Rattle.vl_front.specs.Noting.{keys_of};
ghost use Rattle.vl_front.specs.declared.decision.Decision.TheVariants.{Write};

use crate::Decision;
use crate::note::{note_all, shared_keys};
use std::alloc::{AllocError, Global};
use vl_conflict::Recent;
use vl_disk::Name;
use vl_model::{Key, MAX_COMMIT_NUMBER};
use vl_oracle::{BeginFail, Oracle};
use vl_seglog::{ActiveLog, commit_length};
use vl_txn::{Reads, Writes};

/// What is live, what later commits named, and the log that the next commit is written to.
#[derive(Drop)]
pub struct Front {
    pub oracle: Oracle,
    pub recent: Recent,
    pub log: ActiveLog,
    /// How many bytes the log may have.
    pub room: u64,
    /// The file of which a change failed.
    pub halted: Option<Name>,
}

impl Front {
    ghost use Rattle.vl_front.specs.Decisions.{decision_of, running_decision, room_decision, MayWrite};
    ghost use Rattle.vl_front.specs.Front.{IsPruned, IsSame, Knows, SameLog};

    /// Nothing is live after this last commit.
    pub fn new(alloc: Global, last: u64, log: ActiveLog, room: u64) -> Self
        ensures oracle { result.oracle ≡ record { last = last; tickets = [] } }
        ensures log { (result.log ≡ log) × (result.room ≡ room) × (result.halted ≡ None) }
        ensures knows { (h : History) → last_number h ≡ last → Knows result h }
        ensures pruned { IsPruned result }
    {
        Front {
            oracle: Oracle::new(alloc, last),
            recent: Recent::new(alloc),
            log,
            room,
            halted: None,
        }
    }

    /// What a commit of these writes comes to, for a transaction with these reads at the number.
    pub fn decide(
        &self,
        number: u64,
        reads: &Reads,
        writes: &Writes,
    ) -> Result<Decision, AllocError>
        ensures decided { IfOk result (λ decision. (h : History) (floor : ℕ) (rs : List Read)
            → Remembers floor h self.now.recent.named → floor ≤ number → AreNotesOf rs reads.now.keys reads.now.spans
            → decision ≡ decision_of self.now (entries writes.now) (first_conflict h number rs)) }
        ensures write { IfOk result (λ decision. decision ≡ Write → MayWrite self.now (entries writes.now)) }
    {
        match self.halted {
            Some(name) => Ok(Decision::Halted(name)),
            None => self.decide_running(number, reads, writes),
        }
    }

    /// Takes the memory that noting these writes wants, and gives their keys once more.
    pub fn make_room(&mut self, alloc: Global, writes: &Writes) -> Result<Vec<Key>, AllocError>
        ensures keys { IfOk result (λ keys. keys.items ≡ keys_of (entries writes.now)) }
        ensures room { IfOk result (λ keys. vec_len keys ≤ self.new.recent.room) }
        ensures same { IsSame self.old self.new }
        ensures pruned { IsPruned self.old → IsPruned self.new }
    {
        let keys = shared_keys(alloc, writes)?;
        self.recent.reserve(keys.len())?;
        Ok(keys)
    }

    /// The transaction with the ticket was committed under the next number, with writes of these keys, for which
    /// there is room. It ends.
    pub fn committed(&mut self, ticket: u32, keys: Vec<Key>)
        requires room { vec_len keys ≤ self.old.recent.room }
        requires below { self.old.oracle.last < max_commit_number }
        ensures oracle { self.new.oracle ≡ ended ticket (advanced (self.old.oracle.last + 1) self.old.oracle) }
        ensures log { SameLog self.old self.new }
        ensures knows { (h : History) (writes : Writes) → Knows self.old h → keys.items ≡ keys_of (entries writes)
            → Knows self.new (with_commit h writes) }
        // What nobody can ask any more is forgotten.
        ensures pruned { IsPruned self.new }
    {
        let number = self.oracle.last() + 1;
        note_all(&mut self.recent, keys, number);
        self.oracle.advance(number);
        self.end(ticket);
    }

    /// Begins a transaction or a view at the last number, and gives its ticket.
    pub fn begin(&mut self) -> Result<u32, BeginFail>
        ensures ok { IfOk result (λ ticket. (ticket ≡ free_ticket self.old.oracle) × (self.new.oracle ≡ begun self.old.oracle)) }
        ensures below { IfOk result (λ ticket. ticket < max_live) }
        ensures too_many { (result ≡ Err BeginFail.TooMany) ↔ (length self.old.oracle.tickets ≡ max_live) }
        ensures err { OnErr result (self.new ≡ self.old) }
        ensures log { SameLog self.old self.new }
        ensures knows { (h : History) → Knows self.old h → Knows self.new h }
        ensures pruned { IsPruned self.old → IsPruned self.new }
    {
        self.oracle.begin()
    }

    /// Ends the one that has the ticket, without a commit, and forgets what nobody can ask any more.
    pub fn end(&mut self, ticket: u32)
        ensures oracle { self.new.oracle ≡ ended ticket self.old.oracle }
        ensures log { SameLog self.old self.new }
        ensures knows { (h : History) → Knows self.old h → Knows self.new h }
        ensures pruned { IsPruned self.new }
    {
        self.oracle.end(ticket);
        self.recent.prune(self.oracle.floor());
    }

    // What it comes to where nothing failed.
    fn decide_running(
        &self,
        number: u64,
        reads: &Reads,
        writes: &Writes,
    ) -> Result<Decision, AllocError>
        requires { self.now.halted ≡ None }
        ensures decided { IfOk result (λ decision. (h : History) (floor : ℕ) (rs : List Read)
            → Remembers floor h self.now.recent.named → floor ≤ number → AreNotesOf rs reads.now.keys reads.now.spans
            → decision ≡ running_decision self.now (entries writes.now) (first_conflict h number rs)) }
        ensures write { IfOk result (λ decision. decision ≡ Write → MayWrite self.now (entries writes.now)) }
    {
        if writes.is_empty() {
            return Ok(Decision::Nothing);
        }
        if self.oracle.last() >= MAX_COMMIT_NUMBER {
            return Ok(Decision::Exhausted);
        }
        match self.recent.check(number, reads.keys(), reads.spans())? {
            Some((key, number)) => Ok(Decision::Conflict { key, number }),
            None => Ok(self.room_for(writes)),
        }
    }

    // What a commit comes to that nothing else stands against.
    fn room_for(&self, writes: &Writes) -> Decision
        ensures { result ≡ room_decision self.now (entries writes.now) }
    {
        let length = self.log.length;
        let frame = commit_length(writes.len(), writes.bytes());
        if length <= self.room && frame <= self.room - length {
            Decision::Write
        } else {
            Decision::Full { length, frame }
        }
    }
}
