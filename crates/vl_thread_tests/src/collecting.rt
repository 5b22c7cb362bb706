// How a session gets space back out of a log.
use std::alloc::Global;
use std::sync::Wait;
use vlstore::{Base, Disk, MoveFail, Pass, PickFail, Session, Silent};

type PassOf<D> = Pass<Base<<D as Disk>::Held, <D as Disk>::Reader>, <D as Disk>::Held>;

/// Moves what counts yet out of the log of which the greatest share is garbage. It answers how many records were moved.
pub fn collect<D: Silent, R: Wait>(rt: &R, alloc: Global, session: &mut Session<D>) -> Option<u32> {
    let mut pass = match session.pick(rt, 1) {
        Ok(pass) => pass,
        Err(PickFail::NoRewrite) => return Some(0),
        Err(_) => return None,
    };
    let moved = move_all(rt, alloc, session, &mut pass);
    session.end_pass(rt, pass);
    moved
}

fn move_all<D: Silent, R: Wait>(
    rt: &R,
    alloc: Global,
    session: &mut Session<D>,
    pass: &mut PassOf<D>,
) -> Option<u32> {
    let mut moved: u32 = 0;
    let mut reader = session.reader(rt).ok()?;
    for _ in 0..1000 {
        match pass.next(alloc, &mut reader.files, &mut reader.looks) {
            Ok(Some(batch)) => match session.relocate(rt, pass, batch) {
                Ok(count) => moved = moved.saturating_add(count),
                // Others have filled the log. What is left stays where it is.
                Err(MoveFail::Full { .. }) => return Some(moved),
                Err(_) => return None,
            },
            Ok(None) => return Some(moved),
            Err(_) => return None,
        }
    }
    Some(moved)
}
