use std::io;
use std::io::{ErrorKind, Read, Write};
use std::test::Fail;
use vl_disk::Failed;
use vl_io::{Sink, SliceSource, Source, StdSink, StdSource, VecSink};

// Any source and any sink, seen through their traits alone.
fn copy_all<S: Source, K: Sink>(source: &mut S, sink: &mut K) -> Result<(), Failed> {
    let mut buffer = [0u8; 2];
    for _ in 0..8 {
        let count = source.next(&mut buffer)?;
        if count == 0 {
            break;
        }
        sink.put(&buffer[..count])?;
    }
    Ok(())
}

fn is_send<T: Send>(_value: &T) -> bool {
    true
}

// Gives one byte, fails, and gives one byte again, until it was called four times.
#[derive(Drop)]
struct Flickering {
    calls: u8,
}

impl Read for Flickering {
    fn read(&mut self, buf: &mut [u8]) -> io::Result<usize> {
        self.calls = self.calls.saturating_add(1);
        if self.calls == 2 {
            return Err(io::Error::from(ErrorKind::Other));
        }
        if buf.is_empty() || self.calls > 3 {
            return Ok(0);
        }
        buf[0] = b'a';
        Ok(1)
    }
}

// Is interrupted once, and then gives one byte.
#[derive(Drop)]
struct Interrupted {
    calls: u8,
}

impl Read for Interrupted {
    fn read(&mut self, buf: &mut [u8]) -> io::Result<usize> {
        self.calls = self.calls.saturating_add(1);
        if self.calls == 1 {
            return Err(io::Error::from(ErrorKind::Interrupted));
        }
        if buf.is_empty() || self.calls > 2 {
            return Ok(0);
        }
        buf[0] = b'a';
        Ok(1)
    }
}

// Drops what it is given, and counts how often it was flushed.
#[derive(Drop)]
struct Flushed {
    times: u8,
}

impl Write for Flushed {
    fn write(&mut self, buf: &[u8]) -> io::Result<usize> {
        Ok(buf.len())
    }

    fn flush(&mut self) -> io::Result<()> {
        self.times = self.times.saturating_add(1);
        Ok(())
    }
}

#[test]
fn bytes_go_from_memory_to_memory(rt: HostRuntime) -> Result<(), Fail> {
    let alloc = rt.alloc();
    let mut source = SliceSource::new(b"abcde", Vec::new(alloc));
    let mut sink = VecSink::new(alloc, 5, Vec::new(alloc))?;
    copy_all(&mut source, &mut sink)?;
    assert_eq!(rt; sink.bytes(), b"abcde".as_slice());
    assert_eq!(rt; sink.into_bytes().as_slice(), b"abcde".as_slice());
    Ok(())
}

#[test]
fn bytes_go_from_reader_to_writer(rt: HostRuntime) -> Result<(), Fail> {
    let alloc = rt.alloc();
    let mut source = StdSource::new(b"abcde".as_slice());
    let mut sink = StdSink::new(Vec::new(alloc));
    copy_all(&mut source, &mut sink)?;
    assert_eq!(rt; sink.into_inner().as_slice(), b"abcde".as_slice());
    Ok(())
}

#[test]
fn a_failed_read_is_told_once(rt: HostRuntime) -> Result<(), Fail> {
    let mut source = StdSource::new(Flickering { calls: 0 });
    let mut out = [0u8; 2];
    assert_eq!(rt; source.next(&mut out), Ok(1));
    assert_eq!(rt; source.next(&mut out), Err(Failed));
    assert_eq!(rt; source.next(&mut out), Ok(1));
    assert_eq!(rt; source.next(&mut out), Ok(0));
    Ok(())
}

#[test]
fn a_read_that_was_interrupted_is_begun_again(rt: HostRuntime) -> Result<(), Fail> {
    let mut source = StdSource::new(Interrupted { calls: 0 });
    let mut out = [0u8; 2];
    assert_eq!(rt; source.next(&mut out), Ok(1));
    assert_eq!(rt; source.next(&mut out), Ok(0));
    Ok(())
}

#[test]
fn a_failed_write_is_told(rt: HostRuntime) -> Result<(), Fail> {
    let mut place = [0u8; 3];
    let mut sink = StdSink::new(place.as_mut_slice());
    assert_eq!(rt; sink.put(b"ab"), Ok(()));
    assert_eq!(rt; sink.put(b"cd"), Err(Failed));
    let _ = sink.into_inner();
    Ok(())
}

#[test]
fn each_piece_is_flushed(rt: HostRuntime) {
    let mut sink = StdSink::new(Flushed { times: 0 });
    assert_eq!(rt; sink.put(b"ab"), Ok(()));
    assert_eq!(rt; sink.put(b"c"), Ok(()));
    assert_eq!(rt; sink.into_inner().times, 2);
}

#[test]
fn they_go_to_other_threads(rt: HostRuntime) -> Result<(), Fail> {
    let alloc = rt.alloc();
    assert!(rt; is_send(&SliceSource::new(b"a", Vec::new(alloc))));
    assert!(rt; is_send(&VecSink::new(alloc, 1, Vec::new(alloc))?));
    assert!(rt; is_send(&StdSource::new(b"a".as_slice())));
    assert!(rt; is_send(&StdSink::new(Vec::<u8>::new(alloc))));
    Ok(())
}
