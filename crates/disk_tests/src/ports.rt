//! Sources and sinks over files that move one byte a call, or fail.

use crate::asserts::{must, same, same_at};
use crate::watched::{Record, Watched};
use port_traits::{Failed, FileSink, FileSource, Sink, Source, write_counted};
use std::fs;

const PATH: &str = "disk_tests_port";

// What is written in parts is written whole.
#[test]
fn a_sink_goes_on_behind_a_short_write(rt: HostRuntime) {
    let record = Record::new(rt.alloc());
    record.by_bytes.set(true);
    let watched = Watched {
        rt,
        record: &record,
    };
    let mut sink = FileSink::create(&watched, PATH);
    let mut given = 0;
    let outcome = write_counted(&mut sink, b"hello", &mut given);
    same(&rt, (outcome, given, sink.faults()), (Ok(()), 5, 0));
    let text = must(&rt, fs::read_to_string(&rt, PATH));
    same(&rt, text.as_str(), "hello");
    must(&rt, fs::remove_file(&rt, PATH));
}

// The call of the host by which a source over a file is opened, and those by which it is read: what is read, a part a call,
// where one of them fails. It goes on behind that.
const READ: [(u64, [Result<usize, Failed>; 4]); 5] = [
    (1, [Err(Failed), Ok(3), Ok(2), Ok(0)]),
    (2, [Err(Failed), Ok(3), Ok(2), Ok(0)]),
    (3, [Ok(3), Err(Failed), Ok(2), Ok(0)]),
    (4, [Ok(3), Ok(2), Err(Failed), Ok(0)]),
    (5, [Ok(3), Ok(2), Ok(0), Err(Failed)]),
];

#[test]
fn a_source_tells_each_failed_read(rt: HostRuntime) {
    let path = "disk_tests_source";
    must(&rt, fs::write(&rt, path, "hello"));
    let reads = READ;
    for (call, wanted) in &reads {
        let record = Record::new(rt.alloc());
        record.fails_at.set(Some(*call));
        let watched = Watched {
            rt,
            record: &record,
        };
        let mut source = FileSource::new(watched, must(&rt, String::from_str(rt.alloc(), path)));
        for want in wanted {
            same_at(&rt, *call, source.read(&mut [0; 3]), *want);
        }
        same_at(&rt, *call, source.faults(), 1);
    }
    must(&rt, fs::remove_file(&rt, path));
}
