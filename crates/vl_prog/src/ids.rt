//! Numbers that clients take from leases of a store in memory, each in a thread of its own.
ghost use Rattle.std.specs.Prelude.{◌≡◌, ◌≤◌, Some};
ghost use Rattle.std.specs.Option.{ForSome};
ghost use Rattle.vl_prog.specs.Counting.{PrintsCounted, TellsCounted};
ghost use Rattle.vl_script_model.specs.Endings.{CountsFaultsOf, TheSink};

use std::alloc::Global;
use std::sync::Wait;
use std::thread::Threads;
use vl_drive::Shops;
use vl_io::Sink;
use vl_replay::{NO_MEMORY, finish};
use vl_script::counted_text;
use vl_script_model::Ending;
use vl_sequence::{Counted, count_ids};

/// Lets so many clients take so many numbers each, from leases of so many, over a store that has nothing, and prints what
/// they came to.
pub fn count<T: Shops, R: Threads + Wait + Sync, K: Sink>(
    rt: &R,
    alloc: Global,
    sink: &mut K,
    clients: u32,
    count: u32,
    lease: u32,
) -> Ending
    requires clients { (1 ≤ clients) × (clients ≤ 16) }
    requires count { (1 ≤ count) × (count ≤ 100000) }
    requires lease { (1 ≤ lease) × (lease ≤ 1000) }
    // The counts of a list of all steps of the store are printed, and its key's value, unless memory runs out or the sink fails.
    ensures prints { PrintsCounted K.Sink clients count lease sink.old sink.new result }
    ensures sink_faults { CountsFaultsOf TheSink (Some result) (K.faults sink.old) (K.faults sink.new) }
{
    match text_of::<T, R>(rt, alloc, clients, count, lease) {
        Some(text) => finish(sink, &text, Ending::Complete),
        None => finish(sink, NO_MEMORY, Ending::NoMemory),
    }
}

// What is printed; none where memory ran out, which is all that may happen.
fn text_of<T: Shops, R: Threads + Wait + Sync>(
    rt: &R,
    alloc: Global,
    clients: u32,
    count: u32,
    lease: u32,
) -> Option<Vec<u8>>
    requires clients { (1 ≤ clients) × (clients ≤ 16) }
    requires count { (1 ≤ count) × (count ≤ 100000) }
    requires lease { (1 ≤ lease) × (lease ≤ 1000) }
    ensures { ForSome result (λ text. TellsCounted clients count lease text.items) }
{
    let Ok(
        Counted {
            given,
            leases,
            next,
        },
    ) = count_ids::<T, R>(rt, alloc, clients, count, lease)
    else {
        return None;
    };
    counted_text(alloc, given, leases, next).ok()
}
