//! How what lives is pinned.
ghost use Rattle.std.specs.Prelude.{◌≡◌, ◌≢◌, ℕ, Err, IfOk, OnErr, OnOk, length};
ghost use Rattle.vl_front.specs.Front.{IsPruned, Knows, SameLog};
ghost use Rattle.vl_engine_model.specs.Rulings.Begin.{begun as begun_there};
ghost use Rattle.vl_engine_model.specs.Tickets.{free_ticket as free_there, tickets_of};
ghost use Rattle.vl_engine_model.specs.declared.layout.Layout.{Layout};
ghost use Rattle.vl_space.specs.Pinning.{NotesAtMost, PinsLive, pinned_next, without_pin};
ghost use Rattle.vl_model.specs.History.{History};
ghost use Rattle.vl_model.specs.Limits.{max_live};
ghost use Rattle.vl_oracle.specs.LiveTickets.{begun, free_ticket};
ghost use Rattle.vl_oracle.specs.declared.begin_fail.BeginFail.TheVariants as why;
ghost use Rattle.vl_pins.specs.Pins.{ArePinsOf};
ghost use Rattle.vl_pins.specs.Same.{HaveSameTickets};

use vl_front::Front;
use vl_oracle::BeginFail;
use vl_pins::Pins;

/// Begins a transaction or a view at the last number, and pins this epoch under its ticket.
pub fn begin(front: &mut Front, pins: &mut Pins, epoch: u64) -> Result<u32, BeginFail>
    ensures ok { IfOk result (λ ticket. (ticket ≡ free_ticket front.old.oracle) × (front.new.oracle ≡ begun front.old.oracle)) }
    ensures room { OnOk result (length front.old.oracle.tickets ≢ max_live) }
    ensures too_many { result ≡ Err why.TooMany → length front.old.oracle.tickets ≡ max_live }
    ensures err { OnErr result (front.new ≡ front.old) }
    ensures log { SameLog front.old front.new }
    ensures knows { (h : History) → Knows front.old h → Knows front.new h }
    ensures pruned { IsPruned front.old → IsPruned front.new }
    // It is pinned where not too many are already; and where it is refused the epoch is noted at most.
    ensures pins { OnOk result (length pins.old.live.tickets ≢ max_live → pins.new ≡ pinned_next epoch pins.old) }
    ensures noted { OnErr result (NotesAtMost epoch pins.old pins.new) }
    // Where both have the same tickets they still do.
    ensures same { HaveSameTickets front.old.oracle pins.old.live → HaveSameTickets front.new.oracle pins.new.live }

    // So it is pinned as a layout has it.
    ensures pinned { (l : Layout) (number : ℕ) → PinsLive front.old.oracle pins.old epoch l
        → OnOk result (ArePinsOf pins.new (begun_there l (free_there (tickets_of l.live)) number)) }
    ensures unpinned { (l : Layout) → PinsLive front.old.oracle pins.old epoch l → OnErr result (ArePinsOf pins.new l) }
{
    let pinned = match pins.begin(epoch) {
        Ok(ticket) => Some(ticket),
        Err(BeginFail::TooMany) => None,
        Err(BeginFail::NoMemory) => return Err(BeginFail::NoMemory),
    };
    match front.begin() {
        Ok(ticket) => Ok(ticket),
        Err(why) => {
            unpin(pins, pinned);
            Err(why)
        }
    }
}

// What has this ticket, if there is one, pins nothing then.
fn unpin(pins: &mut Pins, ticket: Option<u32>)
    ensures { pins.new ≡ without_pin ticket pins.old }
{
    match ticket {
        None => {}
        Some(ticket) => pins.end(ticket),
    }
}
