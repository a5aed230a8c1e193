//! Sources and sinks over files and other readers and writers of the system. No clause says what
//! bytes they give or take.

ghost use Rattle.std.specs.Prelude.{◌≡◌, ◌≤◌, length, None, IfOk, IfSome};

use crate::sink::Sink;
use crate::source::{Failed, Source};
use std::io::{Read, Write};
use std::rt::Files;
use std::{fs, io};

/// A source over a file. It opens the file at the first call.
#[derive(Drop)]
pub struct FileSource<R: Files + Drop> {
    rt: R,
    path: String,
    file: Option<R::File>,
    faults: u64,
}

impl<R: Files + Drop> FileSource<R> {
    /// A source over the file at this path.
    pub fn new(rt: R, path: String) -> FileSource<R>
        ensures path { result.path ≡ path }
        ensures faults { ⟦<FileSource<R> as Source>⟧.faults result ≡ 0 }
    {
        FileSource {
            rt,
            path,
            file: None,
            faults: 0,
        }
    }

    // The path is opened where it isn't yet.
    fn read_file(&mut self, into: &mut [u8]) -> io::Result<usize>
        ensures bound { IfOk result (λ n. n ≤ length into.new) }
        ensures faults { self.new.faults ≡ self.old.faults }
    {
        let mut file = match self.file.take() {
            Some(file) => file,
            None => fs::open(&self.rt, &self.path)?,
        };
        let result = file.read(into);
        self.file = Some(file);
        result
    }
}

impl<R: Files + Drop> Source for FileSource<R> {
    ghost left = { λ _. None };

    ghost faults = { λ s. s.faults };

    fn read(&mut self, into: &mut [u8]) -> Result<usize, Failed> {
        match self.read_file(into) {
            Ok(count) => Ok(count),
            Err(_) => {
                self.faults = self.faults.saturating_add(1);
                Err(Failed)
            }
        }
    }

    fn faults(&self) -> u64 {
        self.faults
    }
}

/// A sink over a file or standard output.
#[derive(Drop)]
pub struct FileSink<W: Write + Drop> {
    // None where the file could not be made.
    writer: Option<W>,
    faults: u64,
}

impl<W: Write + Drop> FileSink<W> {
    /// A sink over the file at this path, which is made empty now. Where that fails, each call of the
    /// sink fails.
    pub fn create<R: Files<File = W>>(rt: &R, path: &str) -> FileSink<W>
        ensures { ⟦<FileSink<W> as Sink>⟧.faults result ≡ 0 }
    {
        FileSink {
            writer: fs::create(rt, path).ok(),
            faults: 0,
        }
    }

    /// A sink over a writer as it stands, such as standard output.
    pub fn over(writer: W) -> FileSink<W>
        ensures writer { result.writer ≡ Some writer }
        ensures faults { ⟦<FileSink<W> as Sink>⟧.faults result ≡ 0 }
    {
        FileSink {
            writer: Some(writer),
            faults: 0,
        }
    }

    // How many bytes were taken, or None at any fault.
    fn try_write(&mut self, bytes: &[u8]) -> Option<usize>
        ensures bound { IfSome result (λ n. n ≤ length bytes.now) }
        ensures some { IfSome result (λ n. n ≡ 0 → length bytes.now ≡ 0) }
        ensures faults { self.new.faults ≡ self.old.faults }
    {
        let writer = self.writer.as_mut()?;
        match writer.write(bytes) {
            Ok(count) if count > 0 || bytes.is_empty() => Some(count),
            _ => None,
        }
    }
}

impl<W: Write + Drop> Sink for FileSink<W> {
    ghost taken = { λ _. None };

    ghost faults = { λ s. s.faults };

    fn write(&mut self, bytes: &[u8]) -> Result<usize, Failed> {
        match self.try_write(bytes) {
            Some(count) => Ok(count),
            None => {
                self.faults = self.faults.saturating_add(1);
                Err(Failed)
            }
        }
    }

    fn faults(&self) -> u64 {
        self.faults
    }
}
