//! Streams in memory that work as long as they have bytes or room.
ghost use Rattle.std.specs.Option.{option_map};
ghost use Rattle.std.specs.Prelude.{◌≡◌, ◌≢◌, ◌+◌, ◌-◌, ◌<◌, ◌≤◌, ◌↔◌, [], ◌++◌, Some, length, take, drop, min, IsOk, IsErr, IfOk, IfSome, OnErr, IsErrOf, MatchResult, None, vec_len};
ghost use Rattle.byte_streams.specs.Faults.{next_count};
ghost use Rattle.byte_streams.specs.Memory.{RoomFilled, IsFullFor};
ghost use Rattle.byte_streams.specs.Folders.{stored_files, file_named, ExplainsFetch};

use crate::faults::{Failed, FetchFault};
use crate::folder::Folder;
use crate::sink::Sink;
use crate::source::Source;
use std::alloc::{AllocError, Global};
use std::marker::Model;

/// A source in memory that never fails. It is seen as the bytes that it has left.
#[derive(Drop)]
pub struct PlainSource {
    bytes: Vec<u8>,
    at: usize,
}

impl Model for PlainSource {
    ghost use Rattle.std.specs.Prelude.{ℕ, ◌≤◌, List, drop, vec_len};

    ghost Value = { List ℕ };

    ghost view = { λ source. drop source.at source.bytes.items };

    ghost invariant = { λ source. source.at ≤ vec_len source.bytes };
}

impl PlainSource {
    /// A source of these bytes.
    pub fn new(bytes: Vec<u8>) -> PlainSource
        ensures { result ≡ bytes.items }
    {
        PlainSource { bytes, at: 0 }
    }

    // Moves as many of the bytes that are left as there are, or as the buffer has room for.
    pub(crate) fn give(&mut self, buf: &mut [u8]) -> usize
        ensures amount { result ≡ min (length buf.old) (length self.old) }
        ensures moved { buf.new ≡ take result self.old ++ drop result buf.old }
        ensures rest { self.new ≡ drop result self.old }
    {
        let left = &self.bytes[self.at..];
        let count = buf.len().min(left.len());
        buf[..count].copy_from_slice(&left[..count]);
        self.at += count;
        count
    }
}

impl Source for PlainSource {
    ghost left = { λ source. Some source };

    ghost faults = { λ _. 0 };

    ghost calls = { λ _. 0 };

    fn read(&mut self, buf: &mut [u8]) -> Result<usize, Failed>
        ensures succeeds { IsOk result }
        ensures amount { IfOk result (λ n. n ≡ min (length buf.old) (length self.old)) }
        ensures moved { IfOk result (λ n. buf.new ≡ take n self.old ++ drop n buf.old) }
        ensures rest { IfOk result (λ n. self.new ≡ drop n self.old) }
    {
        Ok(self.give(buf))
    }
}

// A room for a fixed number of bytes, which is there from the start.
#[derive(Drop)]
pub(crate) struct Room {
    bytes: Vec<u8>,
    room: usize,
}

impl Model for Room {
    ghost use Rattle.std.specs.Prelude.{◌≤◌, vec_len, vec_capacity};
    ghost use Rattle.byte_streams.specs.Memory.{RoomFilled};

    ghost Value = { RoomFilled };

    ghost view = { λ kept. record { written = kept.bytes.items; room = kept.room } };

    ghost invariant = { λ kept. (vec_len kept.bytes ≤ kept.room) × (kept.room ≤ vec_capacity kept.bytes) };
}

impl Room {
    pub(crate) fn new(alloc: Global, room: usize) -> Result<Room, AllocError>
        ensures { IfOk result (λ kept. kept ≡ record { written = []; room = room }) }
    {
        let bytes = Vec::with_capacity(alloc, room)?;
        Ok(Room { bytes, room })
    }

    // Appends what fits of the piece.
    pub(crate) fn put(&mut self, piece: &[u8]) -> usize
        ensures amount { result ≡ min (length piece.now) (self.old.room - length self.old.written) }
        ensures appended { self.new ≡ record self.old { written = self.old.written ++ take result piece.now } }
        ensures within { length self.old.written ≤ self.old.room }
    {
        let count = piece.len().min(self.room - self.bytes.len());
        self.bytes.extend_from_slice(&piece[..count]).unwrap();
        count
    }

    pub(crate) fn written(&self) -> &[u8]
        ensures { result.now ≡ self.now.written }
    {
        self.bytes.as_slice()
    }
}

/// A sink in memory that fails only where its room is full.
#[derive(Drop)]
pub struct PlainSink {
    kept: Room,
    faults: u64,
}

impl Model for PlainSink {
    ghost use Rattle.byte_streams.specs.Memory.{PlainWritten};

    ghost Value = { PlainWritten };

    ghost view = { λ sink. record { filled = sink.kept; faults = sink.faults } };
}

impl PlainSink {
    /// An empty sink with a room for this many bytes, which it reserves.
    pub fn new(alloc: Global, room: usize) -> Result<PlainSink, AllocError>
        ensures { IfOk result (λ sink. sink ≡ record { filled = record { written = []; room = room }; faults = 0 }) }
    {
        let kept = Room::new(alloc, room)?;
        Ok(PlainSink { kept, faults: 0 })
    }

    /// What was written so far.
    pub fn written(&self) -> &[u8]
        ensures { result.now ≡ self.now.filled.written }
    {
        self.kept.written()
    }
}

impl Sink for PlainSink {
    ghost written = { λ sink. Some sink.filled.written };

    ghost faults = { λ sink. sink.faults };

    ghost calls = { λ _. 0 };

    fn write(&mut self, piece: &[u8]) -> Result<usize, Failed>
        ensures fails { IsErr result ↔ (IsFullFor self.old.filled piece.now) }
        ensures amount { IfOk result (λ n. n ≡ min (length piece.now) (self.old.filled.room - length self.old.filled.written)) }
        ensures written { IfOk result (λ n. self.new ≡ record self.old {
          filled = record self.old.filled { written = self.old.filled.written ++ take n piece.now };
        }) }
        ensures fault { OnErr result (self.new ≡ record self.old { faults = next_count self.old.faults }) }
        ensures progress { IfOk result (λ n. 0 < length piece.now → 0 < n) }
        ensures never_falls { self.old.faults ≤ self.new.faults }
    {
        let count = self.kept.put(piece);
        if count == 0 && !piece.is_empty() {
            self.faults = self.faults.saturating_add(1);
            return Err(Failed);
        }
        Ok(count)
    }
}

/// A folder in memory that never fails. It is seen as its files.
#[derive(Drop)]
pub struct PlainFolder {
    files: Vec<(String, Vec<u8>)>,
}

impl Model for PlainFolder {
    ghost use Rattle.std.specs.Prelude.{List};
    ghost use Rattle.byte_streams.specs.Folders.{StoredFile, stored_files};

    ghost Value = { List StoredFile };

    ghost view = { λ folder. stored_files folder.files.items };
}

impl PlainFolder {
    /// A folder of these files. Of two files with one name it has the first.
    pub fn new(files: Vec<(String, Vec<u8>)>) -> PlainFolder
        ensures { result ≡ stored_files files.items }
    {
        PlainFolder { files }
    }

    // The bytes of the file of this name, if there are at most `limit`.
    pub(crate) fn look_up(
        &self,
        alloc: Global,
        name: &str,
        limit: usize,
    ) -> Result<Vec<u8>, FetchFault>
        ensures found { IfOk result (λ bytes. file_named self.now name.now ≡ Some bytes.items) }
        ensures within { IfOk result (λ bytes. vec_len bytes ≤ limit) }
        ensures cause { MatchResult result (λ _. Unit {0}) (λ fault. ExplainsFetch fault limit name.now (Some self.now)) }
        ensures works { result ≢ Err FetchFault.Failed }
    {
        match bytes_of(self.files.as_slice(), name) {
            None => Err(FetchFault::NotThere),
            Some(bytes) if limit < bytes.len() => Err(FetchFault::TooLong),
            Some(bytes) => Ok(Vec::from_slice(alloc, bytes)?),
        }
    }
}

// The bytes of the first file of this name.
fn bytes_of<'a>(files: &'a [(String, Vec<u8>)], name: &str) -> Option<&'a [u8]>
    ensures { option_map (λ bytes. bytes.now) result ≡ file_named (stored_files files.now) name.now }
{
    for file in files {
        if file.0.as_str() == name {
            return Some(file.1.as_slice());
        }
    }
    None
}

impl Folder for PlainFolder {
    ghost files = { λ folder. Some folder };

    ghost faults = { λ _. 0 };

    fn fetch(&mut self, alloc: Global, name: &str, limit: usize) -> Result<Vec<u8>, FetchFault>
        ensures found { IfOk result (λ bytes. file_named self.old name.now ≡ Some bytes.items) }
        ensures within { IfOk result (λ bytes. vec_len bytes ≤ limit) }
        ensures cause { MatchResult result (λ _. Unit {0}) (λ fault. ExplainsFetch fault limit name.now (Some self.old)) }
        ensures works { result ≢ Err FetchFault.Failed }
        ensures same { self.new ≡ self.old }
    {
        self.look_up(alloc, name, limit)
    }
}
