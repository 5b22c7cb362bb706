// What is so of all that lives, whatever is asked of an engine: each is the contract of a function that does nothing.
ghost use Rattle.std.specs.Prelude.{◌≡◌, ℕ, false};
ghost use Rattle.vl_model.specs.History.{History, last_number};
ghost use Rattle.vl_engine_model.specs.Rulings.Begin.{Begun, begin_ruling};
ghost use Rattle.vl_engine_model.specs.Start.{Recovered, layout_at_start};
ghost use Rattle.vl_engine_model.specs.Tickets.{has_ticket, tickets_of};
ghost use Rattle.vl_engine_model.specs.declared.layout.Layout.{Layout};
ghost use Rattle.vl_engine_model_laws.specs.Calls.{Call, ruling_on};
ghost use Rattle.vl_engine_model_laws.specs.Live.{IsLivedIn, LeavesLive};

/// The tickets of what lives rise, each number at which it reads is at most the last commit's, and there are
/// no more than the limit: so from the start on, whatever a call answers.
pub fn what_lives_stays_in_order()
    ensures start { (h : History) (room : ℕ) (found : Recovered) → IsLivedIn (layout_at_start room found) h }
    ensures each { (call : Call) (l : Layout) (h : History) → IsLivedIn l h → LeavesLive (ruling_on call l h) }
{}

/// Nothing live has the ticket that a begin gives, and it reads at the last commit's number.
pub fn a_begin_gives_a_free_ticket()
    ensures ticket { (l : Layout) (h : History) (ticket : ℕ) (number : ℕ) → IsLivedIn l h
        → (begin_ruling l h).answer ≡ Begun ticket number
        → has_ticket ticket (tickets_of l.live) ≡ false }
    ensures number { (l : Layout) (h : History) (ticket : ℕ) (number : ℕ)
        → (begin_ruling l h).answer ≡ Begun ticket number → number ≡ last_number h }
{}
