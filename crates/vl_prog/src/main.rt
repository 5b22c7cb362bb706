//! The program: the command line over the process's words and streams, and over the folder that they name. Its stored run makes
//! a store in a new folder: transactions, of which one meets a conflict, with flushes, merges, passes and sweeps between them.
#![tactic(auto)]

mod clients;
mod command_line;
mod ids;
mod process;

use crate::process::{Served, process_words, serve};
use std::io;
use std::process::ExitCode;
use vl_folder::FolderDisk;
use vl_io::{StdSink, StdSource};
use vlstore::SureStore;

fn main(rt: HostRuntime) -> ExitCode {
    let mut source = StdSource::new(rt.reader());
    let mut sink = StdSink::new(io::writer(&rt));
    let words = process_words(&rt);
    let Served { exit, disk } = serve::<SureStore, HostRuntime, _, _, _, _>(
        &rt,
        rt.alloc(),
        words,
        &mut source,
        &mut sink,
        |folder| FolderDisk::new(&rt, rt.alloc(), folder),
    );
    if let Some(disk) = disk {
        tell_fault(&rt, disk);
    }
    exit
}

/// Tells in one line on the standard error what failed last of the folder, if anything did.
fn tell_fault(rt: &HostRuntime, mut disk: FolderDisk<&HostRuntime>) {
    if let Some(fault) = disk.last_fault() {
        let _ = eprintln!(rt; "vlstore: {fault}");
    }
}
