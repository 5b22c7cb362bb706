ghost use Rattle.std.specs.Prelude.{◌≡◌, ◌↔◌, [], Err, IfOk, None, OnErr, length};
ghost use Rattle.vl_model.specs.Limits.{max_live};
ghost use Rattle.vl_oracle.specs.LiveTickets.{begun, ended, free_ticket};
ghost use Rattle.vl_oracle.specs.declared.begin_fail.BeginFail.TheVariants as why;
ghost use Rattle.vl_pins.specs.Pins.{bound_of, least, raised};

use std::alloc::Global;
use vl_oracle::{BeginFail, Oracle};

/// The epochs at which what lives began: transactions and views by their tickets, the merge that is open, and the pass.
#[derive(Drop)]
pub struct Pins {
    pub live: Oracle,
    pub merge: Option<u64>,
    pub pass: Option<u64>,
}

impl Pins {
    /// Nothing is pinned.
    pub fn new(alloc: Global) -> Self
        ensures live { result.live ≡ record { last = 0; tickets = [] } }
        ensures merge { result.merge ≡ None }
        ensures pass { result.pass ≡ None }
    {
        Pins {
            live: Oracle::new(alloc, 0),
            merge: None,
            pass: None,
        }
    }

    /// Pins an epoch, which isn't below earlier ones, for what begins now: with the least ticket that is free here.
    pub fn begin(&mut self, epoch: u64) -> Result<u32, BeginFail>
        ensures begun { IfOk result (λ ticket. (ticket ≡ free_ticket self.old.live)
            × (self.new ≡ record self.old { live = begun (raised epoch self.old.live) })) }
        ensures too_many { (result ≡ Err why.TooMany) ↔ (length self.old.live.tickets ≡ max_live) }
        ensures refused { OnErr result (self.new ≡ record self.old { live = raised epoch self.old.live }) }
        // Where it ends again, only the epoch is noted.
        ensures undone { IfOk result (λ ticket. ended ticket self.new.live ≡ raised epoch self.old.live) }
    {
        self.raise(epoch);
        self.live.begin()
    }

    /// What has this ticket has ended. Where nothing has it nothing changes.
    pub fn end(&mut self, ticket: u32)
        ensures { self.new ≡ record self.old { live = ended ticket self.old.live } }
    {
        self.live.end(ticket);
    }

    /// The least number that is pinned, and the present epoch where that is lower: what was retired up to it is held by
    /// nothing.
    pub fn bound(&mut self, epoch: u64) -> u64
        ensures bound { result ≡ bound_of epoch self.old }
        ensures pins { self.new ≡ record self.old { live = raised epoch self.old.live } }
    {
        self.raise(epoch);
        lower(self.merge, lower(self.pass, self.live.floor()))
    }

    // From now on this version is the present one.
    fn raise(&mut self, epoch: u64)
        ensures { self.new ≡ record self.old { live = raised epoch self.old.live } }
    {
        if self.live.last() < epoch {
            self.live.advance(epoch);
        }
    }
}

// The lower one of a number and another, if there is one.
fn lower(other: Option<u64>, number: u64) -> u64
    ensures { result ≡ least other number }
{
    match other {
        None => number,
        Some(other) => other.min(number),
    }
}
