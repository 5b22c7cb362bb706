// The tickets of what is live, in rising order, each with the number at which it reads.
ghost use Rattle.std.specs.Prelude.{◌≡◌, ◌≤◌, IfNone, IsTrue, length};
ghost use Rattle.std.specs.FinMap.{find, is_sorted};
ghost use Rattle.std.specs.List.{prefix_len};
ghost use Rattle.std.specs.Ordering.{nat_cmp};
ghost use Rattle.vl_oracle.specs.LiveTickets.{free_from, without, is_below};

pub type Tickets = Vec<(u32, u64)>;

/// The least ticket that none has, which is its place too: as far as the tickets go up without a gap, each stands
/// at the place that it names.
pub fn free_ticket(live: &[(u32, u64)]) -> usize
    requires { IsTrue (is_sorted nat_cmp live.now) }
    ensures free { result ≡ free_from 0 live.now }
    ensures within { result ≤ length live.now }
{
    let mut low = 0;
    let mut high = live.len();
    while low < high {
        let middle = low + (high - low) / 2;
        if live[middle].0 as usize == middle {
            low = middle + 1;
        } else {
            high = middle;
        }
    }
    low
}

/// Takes a ticket out, and gives the number at which what had it read. None where nothing has it.
pub fn take(live: &mut Tickets, ticket: u32) -> Option<u64>
    requires { IsTrue (is_sorted nat_cmp live.old.items) }
    ensures number { result ≡ find nat_cmp ticket live.old.items }
    ensures left { live.new.items ≡ without ticket live.old.items }
    ensures kept { IfNone result (live.new.items ≡ live.old.items) }
{
    let at = place(live, ticket);
    if at < live.len() && live[at].0 == ticket {
        let (_, number) = live.remove(at);
        return Some(number);
    }
    None
}

// How many of the tickets are below this one.
fn place(live: &[(u32, u64)], ticket: u32) -> usize
    requires { IsTrue (is_sorted nat_cmp live.now) }
    ensures { result ≡ prefix_len (is_below ticket) live.now }
{
    let mut low = 0;
    let mut high = live.len();
    while low < high {
        let middle = low + (high - low) / 2;
        if live[middle].0 < ticket {
            low = middle + 1;
        } else {
            high = middle;
        }
    }
    low
}
