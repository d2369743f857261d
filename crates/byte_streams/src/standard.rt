//! Sources, sinks and a folder over the standard streams and files, or over any other reader and writer.
ghost use Rattle.std.specs.Prelude.{◌≡◌, ◌+◌, ◌<◌, ◌≤◌, None, length, vec_len, is_ok, IfOk, IsErrOf, if◌then◌else◌, ◌≢◌, MatchResult};
ghost use Rattle.std.specs.Io.KnownBytes.{ReadConsumes, WriteAppends};
ghost use Rattle.byte_streams.specs.Faults.{next_count};
ghost use Rattle.byte_streams.specs.Folders.{counted_by};

use crate::faults::{Failed, FetchFault, ReadFault};
use crate::folder::Folder;
use crate::sink::Sink;
use crate::source::{Source, read_all};
use std::alloc::Global;
use std::fs;
use std::io::{Read, Write};
use std::marker::Model;
use std::rt::Files;

/// A source over a reader, such as the standard input. It tells none of its bytes, and is seen as what
/// the reader knows to be left and its count of faults, which counts the reader's errors.
#[derive(Drop)]
pub struct StdSource<R: Read> {
    input: R,
    faults: u64,
}

impl<R: Read> Model for StdSource<R> {
    ghost use Rattle.byte_streams.specs.Adapted.{ReaderLeft};

    ghost Value = { ReaderLeft };

    ghost view = { λ source. record { remaining = R.remaining source.input; faults = source.faults } };
}

impl<R: Read> StdSource<R> {
    /// A source of what the reader gives from here on.
    pub fn new(input: R) -> StdSource<R>
        ensures { result ≡ record { remaining = R.remaining input; faults = 0 } }
    {
        StdSource { input, faults: 0 }
    }
}

impl<R: Read> Source for StdSource<R> {
    ghost left = { λ _. None };

    ghost faults = { λ source. source.faults };

    ghost calls = { λ _. 0 };

    fn read(&mut self, buf: &mut [u8]) -> Result<usize, Failed>
        ensures within { IfOk result (λ n. n ≤ length buf.old) }
        ensures moved { ReadConsumes self.old.remaining self.new.remaining result buf.new }
        ensures counted { self.new.faults ≡ (if is_ok result then self.old.faults else next_count self.old.faults) }
        ensures never_falls { self.old.faults ≤ self.new.faults }
    {
        match self.input.read(buf) {
            Ok(count) => Ok(count),
            Err(_) => {
                self.faults = self.faults.saturating_add(1);
                Err(Failed)
            }
        }
    }
}

/// A sink over a writer, such as the standard output. It tells none of its bytes, and is seen as what
/// the writer knows that it holds and its count of faults. A fault is an error of the writer, or that it took no byte of a piece that has some.
#[derive(Drop)]
pub struct StdSink<W: Write> {
    output: W,
    faults: u64,
}

impl<W: Write> Model for StdSink<W> {
    ghost use Rattle.byte_streams.specs.Adapted.{WriterHeld};

    ghost Value = { WriterHeld };

    ghost view = { λ sink. record { contents = W.contents sink.output; faults = sink.faults } };
}

impl<W: Write> StdSink<W> {
    /// A sink that hands everything to the writer at once.
    pub fn new(output: W) -> StdSink<W>
        ensures { result ≡ record { contents = W.contents output; faults = 0 } }
    {
        StdSink { output, faults: 0 }
    }
}

impl<W: Write> Sink for StdSink<W> {
    ghost written = { λ _. None };

    ghost faults = { λ sink. sink.faults };

    ghost calls = { λ _. 0 };

    fn write(&mut self, piece: &[u8]) -> Result<usize, Failed>
        ensures within { IfOk result (λ n. n ≤ length piece.now) }
        ensures progress { IfOk result (λ n. 0 < length piece.now → 0 < n) }
        ensures appended { WriteAppends self.old.contents self.new.contents result piece.now }
        ensures counted { self.new.faults ≡ (if is_ok result then self.old.faults else next_count self.old.faults) }
        ensures never_falls { self.old.faults ≤ self.new.faults }
    {
        match self.output.write(piece) {
            Ok(count) if 0 < count || piece.is_empty() => Ok(count),
            _ => {
                self.faults = self.faults.saturating_add(1);
                Err(Failed)
            }
        }
    }
}

/// The files that the runtime opens by their paths. It does not tell them, and is seen as its count of
/// faults. A fault is that a file cannot be opened, as where there is none of this name, or an error while
/// it is read.
#[derive(Drop)]
pub struct StdFolder<R> {
    files: R,
    faults: u64,
}

impl<R> Model for StdFolder<R> {
    ghost use Rattle.std.specs.Prelude.{ℕ};

    ghost Value = { ℕ };

    ghost view = { λ folder. folder.faults };
}

impl<R: Files> StdFolder<R> {
    /// A folder of all files that the runtime opens.
    pub fn new(files: R) -> StdFolder<R>
        ensures { result ≡ 0 }
    {
        StdFolder { files, faults: 0 }
    }

    // Counts a fault.
    fn fault(&mut self) -> FetchFault
        ensures answer { result ≡ FetchFault.Failed }
        ensures counted { self.new ≡ next_count self.old }
        ensures never_falls { self.old ≤ self.new }
    {
        self.faults = self.faults.saturating_add(1);
        FetchFault::Failed
    }
}

impl<R: Files> Folder for StdFolder<R> {
    ghost files = { λ _. None };

    ghost faults = { λ folder. folder };

    fn fetch(&mut self, alloc: Global, name: &str, limit: usize) -> Result<Vec<u8>, FetchFault>
        ensures within { IfOk result (λ bytes. vec_len bytes ≤ limit) }
        ensures counted { MatchResult result (λ _. self.new ≡ self.old) (λ fault. self.new ≡ counted_by fault self.old) }
        ensures never_falls { self.old ≤ self.new }
        ensures there { result ≢ Err FetchFault.NotThere }
    {
        let Ok(file) = fs::open(&self.files, name) else {
            return Err(self.fault());
        };
        match read_all(alloc, &mut StdSource::new(file), limit) {
            Ok(bytes) => Ok(bytes),
            Err(ReadFault::Failed) => Err(self.fault()),
            Err(ReadFault::TooLong) => Err(FetchFault::TooLong),
            Err(ReadFault::OutOfMemory) => Err(FetchFault::OutOfMemory),
        }
    }
}
