//! The process: its words, and the folder that they name.

ghost use Rattle.std.specs.Prelude.{◌≡◌, Some, IfNone, IfOk, IfSome, map, string_bytes};
ghost use Rattle.std.specs.Option.{ForSome};
ghost use Rattle.std.specs.Process.{exit_status};
ghost use Rattle.vl_script_model.specs.Endings.{status_of};
ghost use Rattle.vl_script_model.specs.declared.ending.Ending.{Ending as HowEnded};
ghost use Rattle.vl_script_model.specs.declared.ending.Ending.TheVariants as endings;
ghost use Rattle.vl_replay.specs.AsCalled.{RunsFromOpening, files_by, shares_by};
ghost use Rattle.vl_prog.specs.Run.{EndsBy};
ghost use Rattle.vl_prog.specs.Process.{MayExitWith, ServedOver, folder_of};

use crate::command_line::{CommandEnded, refuse_without_words, run};
use std::alloc::{AllocError, Global};
use std::process::ExitCode;
use std::rt::Env;
use std::sync::Wait;
use std::thread::Threads;
use std::{env, io};
use vl_disk::Disk;
use vl_drive::Shops;
use vl_io::{Sink, Source};

/// How a process ended, and the disk of its run; none where there was no memory for its words or their folder.
pub struct Served<D> {
    pub exit: ExitCode,
    pub disk: Option<D>,
}

/// Carries out a process's command line over a source and a sink, and over the disk that is made for the folder of the
/// second word. Where the words found no memory (`None`) no disk is made.
pub fn serve<
    T: Shops,
    R: Threads + Wait + Sync,
    S: Source,
    K: Sink,
    D: Disk,
    M: FnOnce(String) -> D,
>(
    rt: &R,
    alloc: Global,
    words: Option<Vec<String>>,
    source: &mut S,
    sink: &mut K,
    make_disk: M,
) -> Served<D>
    requires { M.IsAlwaysCallable make_disk }

    // Where there is a disk there were words. All of them are run, over a disk that `make_disk` gave for the folder that the
    // second of them names.
    ensures served { IfSome result.disk (λ disk. (given : _) × (words ≡ Some given)
        × ServedOver S.Source K.Sink D.Watched D.Reader.faults D.Writer.faults
        (λ folder made. (path : _) × (string_bytes path ≡ folder) × M.post make_disk path made)
        (RunsFromOpening D.Watched (files_by D.Held.bytes D.Held.size D.Held.named)
        (shares_by D.Held.is_clone D.Held.is_infallible) D.Reader.Reader D.Writer.Writer K.Sink)
        (map string_bytes given.items) source.old source.new sink.old sink.new disk (exit_status result.exit)) }
    ensures no_memory { IfNone result.disk ((source.new ≡ source.old)
        × EndsBy K.Sink sink.old sink.new endings.NoMemory (exit_status result.exit)) }

    // So the process's exit status is one of these.
    ensures status { (ending : HowEnded) × (exit_status result.exit ≡ status_of ending) }
    ensures exits { ForSome words (λ words. MayExitWith (map string_bytes words.items) (exit_status result.exit)) }
{
    let Some((words, folder)) = with_folder(alloc, words) else {
        let exit = ExitCode::from(refuse_without_words(sink));
        return Served { exit, disk: None };
    };
    let disk = make_disk(folder);
    let CommandEnded { status, disk } = run::<T, R, S, K, D>(
        rt,
        alloc,
        words.as_slice(),
        source,
        sink,
        disk,
    );
    let exit = ExitCode::from(status);
    Served {
        exit,
        disk: Some(disk),
    }
}

/// The words behind the program's name. Where one isn't text there are none, so that they aren't plain; `None` is want of
/// memory.
pub fn process_words<R: Env + AllocGlobal>(rt: &R) -> Option<Vec<String>> {
    match env::args(rt) {
        Ok(mut words) => {
            words.next();
            words.collect(rt.alloc()).ok()
        }
        Err(error) if error.kind() == io::ErrorKind::InvalidData => Some(Vec::new(rt.alloc())),
        Err(_) => None,
    }
}

/// The words with the folder that they name, where there is memory for both.
fn with_folder(alloc: Global, words: Option<Vec<String>>) -> Option<(Vec<String>, String)>
    ensures words { IfSome result (λ found. words ≡ Some found.0) }
    ensures folder { IfSome result (λ found. string_bytes found.1 ≡ folder_of (map string_bytes found.0.items)) }
{
    let words = words?;
    let Ok(folder) = folder_in(alloc, words.as_slice()) else {
        return None;
    };
    Some((words, folder))
}

/// The folder that the second word names, and the working folder where there is none.
fn folder_in(alloc: Global, words: &[String]) -> Result<String, AllocError>
    ensures { IfOk result (λ folder. string_bytes folder ≡ folder_of (map string_bytes words.now)) }
{
    match words {
        [_, folder, ..] => folder.clone(),
        _ => String::from_str(alloc, "."),
    }
}
