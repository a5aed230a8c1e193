use crate::asserts::{must, same, same_at};
use port_traits::{
    Clock, Failed, FileSink, FileSource, FreeGate, Gate, MemSink, MemSource, SetClock, Sink,
    Source, WallClock, write_all_of, write_counted,
};
use std::io::{ErrorKind, Write};
use std::os::unix::fs::MetadataExt;
use std::process::Abort;
use std::time::Duration;
use std::{fs, io};

fn read<S: Source + Send>(source: &mut S, into: &mut [u8]) -> Result<usize, Failed> {
    source.read(into)
}

fn put<K: Sink + Send>(sink: &mut K, bytes: &[u8]) -> (Result<(), Failed>, u64) {
    let mut given = 0;
    let result = write_counted(sink, bytes, &mut given);
    (result, given)
}

fn tell<C: Clock + Send>(clock: &mut C) -> u64 {
    clock.now()
}

fn pass<G: Gate + Sync>(gate: &G) {
    gate.before(0, 0);
    gate.after(0, 0);
}

#[test]
fn memory_source_fails_at_the_listed_calls(rt: HostRuntime) {
    let bytes = must(&rt, b"abcde".to_vec(rt.alloc()));
    let mut source = MemSource::new(bytes, must(&rt, [1].to_vec(rt.alloc()))).at_most(2);
    let mut into = [0u8; 4];
    for want in [Ok(2), Err(Failed), Ok(2), Ok(1), Ok(0)] {
        same(&rt, read(&mut source, &mut into), want);
    }
    same(&rt, into, *b"ed\0\0");
    same(&rt, source.faults(), 1);
}

#[test]
fn memory_sink_fails_at_the_listed_calls(rt: HostRuntime) {
    let mut sink = MemSink::new(rt.alloc(), must(&rt, [3].to_vec(rt.alloc()))).at_most(2);
    same(&rt, write_all_of(&mut sink, b"abc"), Ok(()));
    same(&rt, put(&mut sink, b"defg"), (Err(Failed), 2));
    same(&rt, put(&mut sink, b"fg"), (Ok(()), 2));
    same(&rt, sink.faults(), 1);
    same(&rt, sink.as_bytes(), b"abcdefg".as_slice());
    same(&rt, sink.into_bytes().as_slice(), b"abcdefg".as_slice());
}

#[test]
fn clocks_and_gates(rt: HostRuntime) {
    let mut clock = SetClock::new(must(&rt, [5, 3].to_vec(rt.alloc())), 9);
    for want in [5, 3, 9, 9] {
        same(&rt, tell(&mut clock), want);
    }
    pass(&FreeGate);
}

// In seconds, as a file's time that is made between two looks at the clock. The host may take it from its last tick.
#[test]
fn the_clock_of_the_system(rt: HostRuntime) {
    let path = "port_traits_time.bin";
    let before = tell(&mut WallClock::new(rt));
    must(&rt, fs::write(&rt, path, "now"));
    let made = must(&rt, fs::metadata(&rt, path)).mtime().unsigned_abs();
    let after = tell(&mut WallClock::new(rt));
    let is_between = before <= made.saturating_add(2) && made <= after;
    same_at(&rt, (before, made, after), is_between, true);
    must(&rt, fs::remove_file(&rt, path));
}

fn write_hello<K: Sink + Send>(rt: &impl Abort, sink: &mut K) {
    same(rt, put(sink, b"hello"), (Ok(()), 5));
}

fn read_hello<S: Source + Send>(rt: &impl Abort, source: &mut S) {
    let mut into = [0u8; 8];
    same(rt, read(source, &mut into), Ok(5));
    same(rt, into, *b"hello\0\0\0");
    same(rt, read(source, &mut into), Ok(0));
}

#[test]
fn files_hold_what_was_written(rt: HostRuntime) {
    let path = "port_traits_test.bin";
    must(&rt, fs::write(&rt, path, "old text that is longer"));
    write_hello(&rt, &mut FileSink::create(&rt, path));
    let path_of_source = must(&rt, String::from_str(rt.alloc(), path));
    read_hello(&rt, &mut FileSource::new(rt, path_of_source));
    must(&rt, fs::remove_file(&rt, path));
}

#[test]
fn a_source_that_is_not_there(rt: HostRuntime) {
    let mut source = FileSource::new(rt, must(&rt, String::from_str(rt.alloc(), "no_such_file")));
    same(&rt, read(&mut source, &mut [0; 8]), Err(Failed));
    same(&rt, source.faults(), 1);
}

#[test]
fn a_sink_that_is_not_there(rt: HostRuntime) {
    let mut sink = FileSink::create(&rt, "no_such_folder/file");
    same(&rt, sink.faults(), 0);
    same(&rt, put(&mut sink, b"x"), (Err(Failed), 0));
    same(&rt, sink.faults(), 1);
}

#[test]
fn a_sink_over_the_output(rt: HostRuntime) {
    let mut out = FileSink::over(io::writer(&rt));
    same(&rt, put(&mut out, b"x\n"), (Ok(()), 2));
}

// It takes nothing, or fails.
#[derive(Drop)]
struct Full {
    fails: bool,
}

impl Write for Full {
    fn write(&mut self, _buf: &[u8]) -> io::Result<usize> {
        if self.fails {
            return Err(io::Error::from(ErrorKind::StorageFull));
        }
        Ok(0)
    }

    fn flush(&mut self) -> io::Result<()> {
        Ok(())
    }
}

#[test]
fn a_sink_over_a_writer_that_takes_nothing(rt: HostRuntime) {
    for fails in [false, true] {
        let mut sink = FileSink::over(Full { fails });
        same(&rt, put(&mut sink, b"x"), (Err(Failed), 0));
        same(&rt, sink.faults(), 1);
    }
}

// It tells no time.
#[derive(Clone, Copy)]
struct Stopped;

impl std::rt::Clock for Stopped {
    fn monotonic(&self) -> io::Result<Duration> {
        Err(io::Error::from(ErrorKind::Other))
    }

    fn since_1970(&self) -> io::Result<Duration> {
        Err(io::Error::from(ErrorKind::Other))
    }
}

#[test]
fn a_clock_that_tells_no_time(rt: HostRuntime) {
    same(&rt, tell(&mut WallClock::new(Stopped)), 0);
}
