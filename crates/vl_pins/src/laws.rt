// Laws of pins: each is the contract of a function that does nothing.
ghost use Rattle.std.specs.Prelude.{◌≡◌, ◌≤◌, ℕ, length, nat_le, not};
ghost use Rattle.vl_engine_model.specs.Rising.{IsRising};
ghost use Rattle.vl_engine_model.specs.Ruling.{ended};
ghost use Rattle.vl_engine_model.specs.Rulings.Begin.{begun};
ghost use Rattle.vl_engine_model.specs.Rulings.Sweep.{is_held, pins as pins_of};
ghost use Rattle.vl_engine_model.specs.Tickets.{free_ticket, tickets_of};
ghost use Rattle.vl_engine_model.specs.declared.file_name.Retired.{Retired};
ghost use Rattle.vl_engine_model.specs.declared.layout.Layout.{Layout};
ghost use Rattle.vl_oracle.specs.LiveTickets as oracle;
ghost use Rattle.vl_pins.specs.Pins.{ArePinsOf, bound_of, raised};
ghost use Rattle.vl_pins.specs.Same.{HaveSameTickets};
ghost use Rattle.vl_pins.specs.declared.pins.Pins.{Pins};

/// A pin holds a retired file exactly where the bound is below the epoch that its retirement made.
pub fn the_bound_tells_what_is_held()
    ensures { (pins : Pins) (l : Layout) (r : Retired) → ArePinsOf pins l → r.epoch ≤ l.epoch
        → not (is_held (pins_of l) r) ≡ nat_le r.epoch (bound_of l.epoch pins) }
{}

/// What begins and ends is pinned as the layout has it.
pub fn pins_are_those_of_what_lives()
    ensures begun { (pins : Pins) (l : Layout) (number : ℕ) → ArePinsOf pins l → IsRising (λ x. x.ticket) l.live
        → ArePinsOf (record pins { live = oracle.begun (raised l.epoch pins.live) })
        (begun l (free_ticket (tickets_of l.live)) number) }
    ensures ended { (pins : Pins) (l : Layout) (ticket : ℕ) → ArePinsOf pins l
        → ArePinsOf (record pins { live = oracle.ended ticket pins.live }) (ended ticket l) }
    ensures neither { (pins : Pins) (l : Layout) → ArePinsOf pins l → IsRising (λ x. x.ticket) l.live
        → ArePinsOf (record pins {
          live = oracle.ended (oracle.free_ticket pins.live)
              (oracle.begun (raised l.epoch pins.live));
        }) l }
{}

/// Where two lists of what lives have the same tickets, the same ticket is free in both, and they have the same ones still behind
/// what begins and ends in both.
pub fn same_tickets_stay_the_same()
    ensures free { (one other : oracle.LiveTickets) → HaveSameTickets one other → oracle.free_ticket one ≡ oracle.free_ticket other }
    ensures many { (one other : oracle.LiveTickets) → HaveSameTickets one other → length one.tickets ≡ length other.tickets }
    ensures begun { (one other : oracle.LiveTickets) → HaveSameTickets one other
        → HaveSameTickets (oracle.begun one) (oracle.begun other) }
    ensures ended { (one other : oracle.LiveTickets) (ticket : ℕ) → HaveSameTickets one other
        → HaveSameTickets (oracle.ended ticket one) (oracle.ended ticket other) }
{}
