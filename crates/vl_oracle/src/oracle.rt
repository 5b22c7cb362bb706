ghost use Rattle.std.specs.Prelude.{◌≡◌, ◌≤◌, ◌<◌, ◌↔◌, ◌∷◌, [], List, ℕ, length, IfOk, OnErr};
ghost use Rattle.vl_model.specs.Limits.{max_live};
ghost use Rattle.vl_oracle.specs.LiveTickets.{LiveTickets, AreLive, free_ticket, begun, ended, advanced, floor_of};

use crate::BeginFail;
use crate::numbers::{self, Numbers};
use crate::ticket_list::{self, Tickets};
use std::alloc::Global;
use std::collections::BTreeMap;
use std::marker::Model;
use vl_model::MAX_LIVE;

/// The number of the last commit, and the tickets of what is live, each with the number at which it reads.
#[derive(Drop)]
pub struct Oracle {
    last: u64,
    live: Tickets,
    numbers: Numbers,
}

impl Model for Oracle {
    ghost use Rattle.std.specs.Ordering.{nat_cmp};
    ghost use Rattle.std.specs.BTreeMap.{get};
    ghost use Rattle.vl_oracle.specs.LiveTickets.{LiveTickets};
    ghost use Rattle.vl_oracle.specs.Counts.{IsKept};

    ghost Value = { LiveTickets };

    ghost view = { λ a. record { last = a.last; tickets = a.live.items } };

    ghost invariant = { λ a. IsKept (record { last = a.last; tickets = a.live.items }) (get nat_cmp a.numbers) };
}

impl Oracle {
    /// Nothing is live after this commit.
    pub fn new(alloc: Global, last: u64) -> Self
        ensures { result ≡ record { last = last; tickets = [] } }
    {
        Oracle {
            last,
            live: Vec::new(alloc),
            numbers: BTreeMap::new(alloc),
        }
    }

    /// The number of the last commit.
    pub fn last(&self) -> u64
        ensures last { result ≡ self.now.last }
        ensures live { AreLive self.now }
    {
        self.last
    }

    /// Begins a transaction or a view at the last number, and gives its ticket.
    pub fn begin(&mut self) -> Result<u32, BeginFail>
        ensures ok { IfOk result (λ ticket. (ticket ≡ free_ticket self.old) × (self.new ≡ begun self.old)) }
        ensures below { IfOk result (λ ticket. ticket < max_live) }
        ensures too_many { (result ≡ Err BeginFail.TooMany) ↔ (length self.old.tickets ≡ max_live) }
        ensures err { OnErr result (self.new ≡ self.old) }
        ensures floor { floor_of self.old ≤ floor_of self.new }
        ensures floor_stays { floor_of self.new ≡ floor_of self.old }
        // Where it ends again, all is as it was.
        ensures undone { IfOk result (λ ticket. ended ticket self.new ≡ self.old) }
    {
        if self.live.len() >= MAX_LIVE as usize {
            return Err(BeginFail::TooMany);
        }
        let ticket = ticket_list::free_ticket(&self.live);
        numbers::add(&mut self.numbers, self.last)?;
        match self.live.insert(ticket, (ticket as u32, self.last)) {
            Ok(()) => Ok(ticket as u32),
            Err(_) => {
                numbers::remove(&mut self.numbers, self.last);
                Err(BeginFail::NoMemory)
            }
        }
    }

    /// Ends the one that has the ticket. Where none has it, nothing is changed.
    pub fn end(&mut self, ticket: u32)
        ensures ended { self.new ≡ ended ticket self.old }
        ensures floor { floor_of self.old ≤ floor_of self.new }
    {
        match ticket_list::take(&mut self.live, ticket) {
            Some(number) => numbers::remove(&mut self.numbers, number),
            None => {}
        }
    }

    /// What begins from now on reads at this number, which isn't below the last.
    pub fn advance(&mut self, last: u64)
        requires { self.old.last ≤ last }
        ensures advanced { self.new ≡ advanced last self.old }
        ensures floor { floor_of self.old ≤ floor_of self.new }
    {
        self.last = last;
    }

    /// The least number at which a live one reads, and the last where none is live.
    pub fn floor(&self) -> u64
        ensures { result ≡ floor_of self.now }
    {
        numbers::least(&self.numbers).unwrap_or(self.last)
    }
}
