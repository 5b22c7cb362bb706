// Laws of what is live: each is the contract of a function that does nothing.
ghost use Rattle.std.specs.Prelude.{◌≡◌, ◌≤◌, ◌<◌, ℕ, List, Some, None, IsSome, IsTrue};
ghost use Rattle.std.specs.FinMap.{find, is_sorted};
ghost use Rattle.std.specs.Ordering.{nat_cmp};
ghost use Rattle.vl_oracle.specs.LiveTickets.{LiveTickets, Ticket, AreLive, free_ticket, floor_of, IsAttained};

/// None has the free ticket, and each lesser one is taken.
pub fn free_ticket_is_the_least()
    ensures free { (live : LiveTickets) → IsTrue (is_sorted nat_cmp live.tickets)
        → find nat_cmp (free_ticket live) live.tickets ≡ None }
    ensures below { (live : LiveTickets) (ticket : ℕ) → ticket < free_ticket live → IsSome (find nat_cmp ticket live.tickets) }
{}

/// Nothing that is live reads below the floor, and the floor isn't above the last number. Where something
/// is live, something reads at the floor; where nothing is, the floor is the last number.
pub fn floor_is_the_least()
    ensures live { (live : LiveTickets) (ticket number : ℕ) → find nat_cmp ticket live.tickets ≡ Some number
        → floor_of live ≤ number }
    ensures last { (live : LiveTickets) → AreLive live → floor_of live ≤ live.last }
    ensures attained { (live : LiveTickets) → IsAttained (floor_of live) live.last live.tickets }
{}
