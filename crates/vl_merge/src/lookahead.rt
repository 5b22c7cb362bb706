ghost use Rattle.std.specs.Prelude.{◌≡◌, true, false};
ghost use Rattle.std.specs.Ordering.{is_gt};
ghost use Rattle.vl_merge.specs.ReadAhead.{IsKnown, entry_of, taken, takes_older};
ghost use Rattle.vl_model.specs.Order.{way_cmp};

use std::mem;
use vl_model::{Entry, Way, entry_order};

// What is known of the next entry of a source.
#[derive(Drop)]
pub enum Lookahead {
    // Nothing is.
    Unread,
    Next(Entry),
    // There is none.
    End,
}

// Whether an older source's entry comes before a newer one's; of equal ones the newer one's does.
pub fn takes_older(way: Way, newer: &Lookahead, older: &Lookahead) -> bool
    ensures { result ≡ takes_older way newer.now older.now }
{
    match (newer, older) {
        (Lookahead::Next(a), Lookahead::Next(b)) => is_after(way, a, b),
        (Lookahead::Next(_), _) => false,
        _ => true,
    }
}

impl Lookahead {
    // The entry that is read, where one is; then none is.
    pub fn take(&mut self) -> Option<Entry>
        ensures gives { result ≡ entry_of self.old }
        ensures taken { self.new ≡ taken self.old }
    {
        match mem::replace(self, Lookahead::Unread) {
            Lookahead::Unread => None,
            Lookahead::Next(entry) => Some(entry),
            Lookahead::End => {
                *self = Lookahead::End;
                None
            }
        }
    }
}

// Whether an entry comes behind another on the way.
fn is_after(way: Way, a: &Entry, b: &Entry) -> bool
    ensures { result ≡ is_gt (way_cmp way a.now b.now) }
{
    let (first, second) = match way {
        Way::Up => (a, b),
        Way::Down => (b, a),
    };
    entry_order(first, second).is_gt()
}
