//! Sources and sinks in memory, for tests and for sessions that a program makes itself.

mod calls;

ghost use Rattle.std.specs.Prelude.{◌≡◌, ◌≤◌, ◌<◌, ◌++◌, ◌↔◌, [], take, drop, length, Some, IsErr, IfOk, OnOk, OnErr, Contains};
ghost use Rattle.port_traits.specs.Faults.{HasCause};
ghost use Rattle.port_traits.specs.Memory.{read_count, after_read, after_failed_read, write_count, after_write, after_failed_write};

use crate::sink::Sink;
use crate::source::{Failed, Source};
use calls::FailingCalls;
use std::alloc::Global;
use std::marker::Model;

/// A source over bytes in memory. A call fails exactly where its number, from 0, is in a list.
#[derive(Drop)]
pub struct MemSource {
    bytes: Vec<u8>,
    place: usize,
    most: usize,
    calls: FailingCalls,
}

impl Model for MemSource {
    ghost use Rattle.std.specs.Prelude.{◌≤◌, ◌<◌, drop, vec_len};
    ghost use Rattle.port_traits.specs.Memory.{Reading};

    ghost Value = { Reading };

    ghost view = { λ s. record { left = drop s.place s.bytes.items; most = s.most; calls = s.calls } };

    ghost invariant = { λ s. (s.place ≤ vec_len s.bytes) × (0 < s.most) };
}

impl MemSource {
    /// A source of these bytes, whose calls with these numbers fail.
    pub fn new(bytes: Vec<u8>, failing: Vec<u64>) -> MemSource
        ensures left { result.left ≡ bytes.items }
        ensures most { result.most ≡ usize.MAX }
        ensures calls { result.calls ≡ record { failing = failing.items; made = 0; faults = 0 } }
    {
        MemSource {
            bytes,
            place: 0,
            most: usize::MAX,
            calls: FailingCalls::new(failing),
        }
    }

    /// The same source, whose reads give at most so many bytes.
    pub fn at_most(mut self, most: usize) -> MemSource
        requires { 0 < most }
        ensures { result ≡ record self { most = most } }
    {
        self.most = most;
        self
    }
}

impl Source for MemSource {
    ghost left = { λ s. Some s.left };

    ghost faults = { λ s. s.calls.faults };

    fn read(&mut self, into: &mut [u8]) -> Result<usize, Failed>
        ensures fails { IsErr result ↔ Contains self.old.calls.failing self.old.calls.made }
        ensures count { IfOk result (λ n. n ≡ read_count self.old (length into.old)) }
        ensures into { IfOk result (λ n. into.new ≡ take n self.old.left ++ drop n into.old) }
        ensures ok { IfOk result (λ n. self.new ≡ after_read self.old n) }
        ensures err { OnErr result (self.new ≡ after_failed_read self.old) }
        ensures untouched { OnErr result (into.new ≡ into.old) }
        ensures end { IfOk result (λ n. 0 < length into.old → (n ≡ 0) ↔ (self.old.left ≡ [])) }
        ensures cause { HasCause self.old.calls.faults self.new.calls.faults result }
    {
        if self.calls.next_fails() {
            self.calls.count_fault();
            return Err(Failed);
        }
        let rest = &self.bytes[self.place..];
        let count = into.len().min(self.most).min(rest.len());
        into[..count].copy_from_slice(&rest[..count]);
        self.place += count;
        self.calls.count_call();
        Ok(count)
    }

    fn faults(&self) -> u64 {
        self.calls.faults()
    }
}

/// A sink over bytes in memory. A call fails where its number, from 0, is in a list, and where memory
/// for the bytes can't be had.
#[derive(Drop)]
pub struct MemSink {
    bytes: Vec<u8>,
    most: usize,
    calls: FailingCalls,
}

impl Model for MemSink {
    ghost use Rattle.std.specs.Prelude.{◌<◌};
    ghost use Rattle.port_traits.specs.Memory.{Writing};

    ghost Value = { Writing };

    ghost view = { λ s. record { taken = s.bytes.items; most = s.most; calls = s.calls } };

    ghost invariant = { λ s. 0 < s.most };
}

impl MemSink {
    /// An empty sink, whose calls with these numbers fail. It takes no memory yet.
    pub fn new(alloc: Global, failing: Vec<u64>) -> MemSink
        ensures taken { result.taken ≡ [] }
        ensures most { result.most ≡ usize.MAX }
        ensures calls { result.calls ≡ record { failing = failing.items; made = 0; faults = 0 } }
    {
        MemSink {
            bytes: Vec::new(alloc),
            most: usize::MAX,
            calls: FailingCalls::new(failing),
        }
    }

    /// The same sink, whose writes take at most so many bytes.
    pub fn at_most(mut self, most: usize) -> MemSink
        requires { 0 < most }
        ensures { result ≡ record self { most = most } }
    {
        self.most = most;
        self
    }

    /// The bytes that it has taken.
    pub fn as_bytes(&self) -> &[u8]
        ensures { result.now ≡ self.now.taken }
    {
        &self.bytes
    }

    /// The bytes that it has taken.
    pub fn into_bytes(self) -> Vec<u8>
        ensures { result.items ≡ self.taken }
    {
        let MemSink {
            bytes,
            most: _,
            calls: _,
        } = self;
        bytes
    }
}

impl Sink for MemSink {
    ghost taken = { λ s. Some s.taken };

    ghost faults = { λ s. s.calls.faults };

    // A call may also fail for want of memory.
    fn write(&mut self, bytes: &[u8]) -> Result<usize, Failed>
        ensures fails { Contains self.old.calls.failing self.old.calls.made → IsErr result }
        ensures count { IfOk result (λ n. n ≡ write_count self.old bytes.now) }
        ensures some { IfOk result (λ n. n ≡ 0 → length bytes.now ≡ 0) }
        ensures ok { OnOk result (self.new ≡ after_write self.old bytes.now) }
        ensures err { OnErr result (self.new ≡ after_failed_write self.old) }
        ensures cause { HasCause self.old.calls.faults self.new.calls.faults result }
    {
        let front = &bytes[..bytes.len().min(self.most)];
        if self.calls.next_fails() || self.bytes.extend_from_slice(front).is_err() {
            self.calls.count_fault();
            return Err(Failed);
        }
        self.calls.count_call();
        Ok(front.len())
    }

    fn faults(&self) -> u64 {
        self.calls.faults()
    }
}
