//! Clients over a store in memory, each in a thread of its own, and what they came to.
ghost use Rattle.std.specs.Prelude.{◌≡◌, ◌≤◌, Some};
ghost use Rattle.std.specs.Option.{ForSome};
ghost use Rattle.vl_prog.specs.Driving.{PrintsDriven, TellsDriven};
ghost use Rattle.vl_script_model.specs.Endings.{CountsFaultsOf, TheSink};

use std::alloc::Global;
use std::sync::Wait;
use std::thread::Threads;
use vl_drive::{Shops, drive_store};
use vl_io::Sink;
use vl_replay::{NO_MEMORY, finish};
use vl_script::driven_text;
use vl_script_model::Ending;

/// Lets so many clients take so many turns each over a store that has nothing, as a seed says, and prints what they came to.
pub fn drive<T: Shops, R: Threads + Wait + Sync, K: Sink>(
    rt: &R,
    alloc: Global,
    sink: &mut K,
    clients: u32,
    txns: u32,
    seed: u64,
) -> Ending
    requires clients { (1 ≤ clients) × (clients ≤ 16) }
    // The counts and the sum of a list of all steps of the store are printed, unless memory runs out or the sink fails.
    ensures prints { PrintsDriven K.Sink clients txns seed sink.old sink.new result }
    ensures sink_faults { CountsFaultsOf TheSink (Some result) (K.faults sink.old) (K.faults sink.new) }
{
    match text_of::<T, R>(rt, alloc, clients, txns, seed) {
        Some(text) => finish(sink, &text, Ending::Complete),
        None => finish(sink, NO_MEMORY, Ending::NoMemory),
    }
}

// What is printed; none where memory ran out, which is all that may happen.
fn text_of<T: Shops, R: Threads + Wait + Sync>(
    rt: &R,
    alloc: Global,
    clients: u32,
    txns: u32,
    seed: u64,
) -> Option<Vec<u8>>
    requires clients { (1 ≤ clients) × (clients ≤ 16) }
    ensures { ForSome result (λ text. TellsDriven clients txns seed text.items) }
{
    // What the store holds in the end isn't printed: the counts and the sum are those of its steps.
    let Ok((driven, _closed)) = drive_store::<T, R>(rt, alloc, clients, txns, seed) else {
        return None;
    };
    driven_text(alloc, driven.commits, driven.conflicts, driven.total).ok()
}
