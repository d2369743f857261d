//! Streams in memory that fail at given calls, and move few bytes at a time.
ghost use Rattle.std.specs.Prelude.{◌≡◌, ◌+◌, ◌-◌, ◌<◌, ◌≤◌, ◌⊎◌, ◌↔◌, [], ◌++◌, Some, length, take, drop, min, IsOk, IsErr, IfOk, OnOk, OnErr, IsErrOf, MatchResult, vec_len};
ghost use Rattle.byte_streams.specs.Faults.{next_count};
ghost use Rattle.byte_streams.specs.Folders.{stored_files, file_named, ExplainsFetch, calls_after};
ghost use Rattle.byte_streams.specs.Memory.{no_calls, IsDueToFail, after_call, after_fault, RoomFilled, IsFullFor};

use crate::faults::{Failed, FetchFault};
use crate::folder::Folder;
use crate::plain::{PlainFolder, PlainSource, Room};
use crate::sink::Sink;
use crate::source::Source;
use std::alloc::{AllocError, Global};
use std::marker::Model;

// The calls that came, and those that are to fail. Calls are numbered from 1.
#[derive(Drop)]
pub(crate) struct Script {
    fail: Vec<u64>,
    made: u64,
    faults: u64,
}

impl Model for Script {
    ghost use Rattle.byte_streams.specs.Memory.{Calls};

    ghost Value = { Calls };

    ghost view = { λ script. record { fail = script.fail.items; made = script.made; faults = script.faults } };
}

impl Script {
    pub(crate) fn new(fail: Vec<u64>) -> Script
        ensures { result ≡ no_calls fail.items }
    {
        Script {
            fail,
            made: 0,
            faults: 0,
        }
    }

    // Counts the next call, and answers whether it is to fail.
    pub(crate) fn call(&mut self) -> Result<(), Failed>
        ensures fails { IsErr result ↔ IsDueToFail self.old }
        ensures ok { OnOk result (self.new ≡ after_call self.old) }
        ensures fault { OnErr result (self.new ≡ after_fault self.old) }
        ensures never_falls { self.old.faults ≤ self.new.faults }
    {
        self.made = self.made.saturating_add(1);
        if self.fail.contains(&self.made) {
            return Err(self.fault());
        }
        Ok(())
    }

    // Counts a fault.
    pub(crate) fn fault(&mut self) -> Failed
        ensures counted { self.new ≡ record self.old { faults = next_count self.old.faults } }
        ensures never_falls { self.old.faults ≤ self.new.faults }
    {
        self.faults = self.faults.saturating_add(1);
        Failed
    }
}

/// A source in memory that moves at most so many bytes a call, and fails at given calls.
#[derive(Drop)]
pub struct MemSource {
    rest: PlainSource,
    most: usize,
    script: Script,
}

impl Model for MemSource {
    ghost use Rattle.std.specs.Prelude.{◌≤◌};
    ghost use Rattle.byte_streams.specs.Memory.{MemoryLeft};

    ghost Value = { MemoryLeft };

    ghost view = { λ source. record { left = source.rest; most = source.most; calls = source.script } };

    ghost invariant = { λ source. 1 ≤ source.most };
}

impl MemSource {
    /// A source of these bytes. A call moves at most `most` bytes. A call whose number, counted from 1,
    /// is in `fail` fails.
    pub fn new(bytes: Vec<u8>, most: usize, fail: Vec<u64>) -> MemSource
        requires { 1 ≤ most }
        ensures { result ≡ record { left = bytes.items; most = most; calls = no_calls fail.items } }
    {
        MemSource {
            rest: PlainSource::new(bytes),
            most,
            script: Script::new(fail),
        }
    }
}

impl Source for MemSource {
    ghost left = { λ source. Some source.left };

    ghost faults = { λ source. source.calls.faults };

    ghost calls = { λ source. source.calls.made };

    fn read(&mut self, buf: &mut [u8]) -> Result<usize, Failed>
        ensures fails { IsErr result ↔ IsDueToFail self.old.calls }
        ensures amount { IfOk result (λ n. n ≡ min (min (length buf.old) self.old.most) (length self.old.left)) }
        ensures moved { IfOk result (λ n. buf.new ≡ take n self.old.left ++ drop n buf.old) }
        ensures rest { IfOk result (λ n. self.new ≡ record self.old {
          left = drop n self.old.left;
          calls = after_call self.old.calls;
        }) }
        ensures fault { OnErr result (self.new ≡ record self.old { calls = after_fault self.old.calls }) }
        ensures untouched { OnErr result (buf.new ≡ buf.old) }
        ensures ended { IfOk result (λ n. n ≡ 0 → 0 < length buf.old → self.old.left ≡ []) }
        ensures never_falls { self.old.calls.faults ≤ self.new.calls.faults }
    {
        self.script.call()?;
        let room = buf.len().min(self.most);
        Ok(self.rest.give(&mut buf[..room]))
    }
}

/// A sink in memory that takes at most so many bytes a call, and fails at given calls and where its
/// room is full.
#[derive(Drop)]
pub struct MemSink {
    kept: Room,
    most: usize,
    script: Script,
}

impl Model for MemSink {
    ghost use Rattle.std.specs.Prelude.{◌≤◌};
    ghost use Rattle.byte_streams.specs.Memory.{MemoryWritten};

    ghost Value = { MemoryWritten };

    ghost view = { λ sink. record { filled = sink.kept; most = sink.most; calls = sink.script } };

    ghost invariant = { λ sink. 1 ≤ sink.most };
}

impl MemSink {
    /// An empty sink with a room for this many bytes, which it reserves. A call takes at most `most`
    /// bytes. A call whose number, counted from 1, is in `fail` fails.
    pub fn new(
        alloc: Global,
        room: usize,
        most: usize,
        fail: Vec<u64>,
    ) -> Result<MemSink, AllocError>
        requires { 1 ≤ most }
        ensures { IfOk result (λ sink. sink ≡ record {
          filled = record { written = []; room = room };
          most = most;
          calls = no_calls fail.items;
        }) }
    {
        let kept = Room::new(alloc, room)?;
        Ok(MemSink {
            kept,
            most,
            script: Script::new(fail),
        })
    }

    /// What was written so far.
    pub fn written(&self) -> &[u8]
        ensures { result.now ≡ self.now.filled.written }
    {
        self.kept.written()
    }
}

impl Sink for MemSink {
    ghost written = { λ sink. Some sink.filled.written };

    ghost faults = { λ sink. sink.calls.faults };

    ghost calls = { λ sink. sink.calls.made };

    fn write(&mut self, piece: &[u8]) -> Result<usize, Failed>
        ensures fails { IsErr result ↔ (IsDueToFail self.old.calls ⊎ IsFullFor self.old.filled piece.now) }
        ensures amount { IfOk result (λ n. n ≡ min (min (length piece.now) self.old.most) (self.old.filled.room - length self.old.filled.written)) }
        ensures written { IfOk result (λ n. self.new ≡ record self.old {
          filled = record self.old.filled { written = self.old.filled.written ++ take n piece.now };
          calls = after_call self.old.calls;
        }) }
        ensures fault { OnErr result (self.new ≡ record self.old { calls = after_fault self.old.calls }) }
        ensures progress { IfOk result (λ n. 0 < length piece.now → 0 < n) }
        ensures never_falls { self.old.calls.faults ≤ self.new.calls.faults }
    {
        self.script.call()?;
        let asked = piece.len().min(self.most);
        let count = self.kept.put(&piece[..asked]);
        if count == 0 && !piece.is_empty() {
            return Err(self.script.fault());
        }
        Ok(count)
    }
}

/// A folder in memory that fails at given calls.
#[derive(Drop)]
pub struct MemFolder {
    files: PlainFolder,
    script: Script,
}

impl Model for MemFolder {
    ghost use Rattle.byte_streams.specs.Folders.{MemoryFiles};

    ghost Value = { MemoryFiles };

    ghost view = { λ folder. record { files = folder.files; calls = folder.script } };
}

impl MemFolder {
    /// A folder of these files. Of two files with one name it has the first. A call whose number, counted
    /// from 1, is in `fail` fails.
    pub fn new(files: Vec<(String, Vec<u8>)>, fail: Vec<u64>) -> MemFolder
        ensures { result ≡ record { files = stored_files files.items; calls = no_calls fail.items } }
    {
        MemFolder {
            files: PlainFolder::new(files),
            script: Script::new(fail),
        }
    }
}

impl Folder for MemFolder {
    ghost files = { λ folder. Some folder.files };

    ghost faults = { λ folder. folder.calls.faults };

    fn fetch(&mut self, alloc: Global, name: &str, limit: usize) -> Result<Vec<u8>, FetchFault>
        ensures found { IfOk result (λ bytes. file_named self.old.files name.now ≡ Some bytes.items) }
        ensures within { IfOk result (λ bytes. vec_len bytes ≤ limit) }
        ensures cause { MatchResult result (λ _. Unit {0}) (λ fault. ExplainsFetch fault limit name.now (Some self.old.files)) }

        ensures fails { IsErrOf result FetchFault.Failed ↔ IsDueToFail self.old.calls }
        ensures called { MatchResult result
            (λ _. self.new ≡ record self.old { calls = after_call self.old.calls })
            (λ fault. self.new ≡ record self.old { calls = calls_after fault self.old.calls }) }
        ensures never_falls { self.old.calls.faults ≤ self.new.calls.faults }
    {
        self.script.call()?;
        self.files.look_up(alloc, name, limit)
    }
}
