//! Devices in memory and in a folder that fail at each call in turn.

use crate::{
    Failed, FetchFault, Folder, MemFolder, MemSink, MemSource, PlainFolder, PlainSink, PlainSource,
    ReadFault, Sink, Source, StdFolder, StdSink, StdSource, read_all, write_whole,
};
use std::alloc::{AllocError, Global};
use std::io::{Read, Write};
use std::test::Fail;
use std::{fs, io};

fn source_of(alloc: Global, text: &str) -> Result<PlainSource, AllocError> {
    Ok(PlainSource::new(Vec::from_slice(alloc, text.as_bytes())?))
}

#[test]
fn reads_everything_within_the_limit(rt: HostRuntime) -> Result<(), Fail> {
    let rows: [(&str, usize, Result<&[u8], ReadFault>); 4] = [
        ("abc", 3, Ok(b"abc")),
        ("abc", 2, Err(ReadFault::TooLong)),
        ("", 3, Ok(b"")),
        ("", 0, Ok(b"")),
    ];
    for (text, limit, want) in rows {
        let mut source = source_of(rt.alloc(), text)?;
        let got = read_all(rt.alloc(), &mut source, limit);
        match (got, want) {
            (Ok(bytes), Ok(wanted)) => assert_eq!(rt; bytes.as_slice(), wanted),
            (Err(fault), Err(wanted)) => assert_eq!(rt; fault, wanted),
            _ => assert!(rt; false, "at {text:?} and {limit}"),
        }
    }
    Ok(())
}

#[test]
fn a_read_that_fails_ends_the_reading(rt: HostRuntime) -> Result<(), Fail> {
    let bytes = Vec::from_slice(rt.alloc(), b"abc")?;
    let fail = vec![in rt.alloc(); 2u64]?;
    let mut source = MemSource::new(bytes, 1, fail);
    match read_all(rt.alloc(), &mut source, 3) {
        Err(fault) => assert_eq!(rt; fault, ReadFault::Failed),
        Ok(_) => assert!(rt; false),
    }
    let rest = read_all(rt.alloc(), &mut source, 3)?;
    assert_eq!(rt; rest.as_slice(), b"bc".as_slice());
    Ok(())
}

#[test]
fn writes_everything_that_fits(rt: HostRuntime) -> Result<(), Fail> {
    let mut small = PlainSink::new(rt.alloc(), 2)?;
    assert_eq!(rt; write_whole(&mut small, b"abc"), Err(Failed));
    assert_eq!(rt; small.written(), b"ab".as_slice());

    let mut slow = MemSink::new(rt.alloc(), 3, 1, Vec::new(rt.alloc()))?;
    assert_eq!(rt; write_whole(&mut slow, b"abc"), Ok(()));
    assert_eq!(rt; slow.written(), b"abc".as_slice());
    Ok(())
}

#[test]
fn a_write_that_fails_leaves_what_was_written(rt: HostRuntime) -> Result<(), Fail> {
    let fail = vec![in rt.alloc(); 2u64]?;
    let mut sink = MemSink::new(rt.alloc(), 3, 1, fail)?;
    assert_eq!(rt; write_whole(&mut sink, b"abc"), Err(Failed));
    assert_eq!(rt; sink.written(), b"a".as_slice());
    assert_eq!(rt; write_whole(&mut sink, b"bc"), Ok(()));
    assert_eq!(rt; sink.written(), b"abc".as_slice());
    Ok(())
}

// Gives and takes one byte a call, and fails at the call `cut` calls from now.
#[derive(Drop)]
struct Flaky {
    cut: u64,
}

impl Flaky {
    fn turn(&mut self) -> io::Result<()> {
        self.cut = self.cut.wrapping_sub(1);
        if self.cut == 0 {
            return Err(io::Error::from(io::ErrorKind::BrokenPipe));
        }
        Ok(())
    }
}

impl Read for Flaky {
    fn read(&mut self, buf: &mut [u8]) -> io::Result<usize> {
        self.turn()?;
        match buf.first_mut() {
            Some(place) => {
                *place = b'x';
                Ok(1)
            }
            None => Ok(0),
        }
    }
}

impl Write for Flaky {
    fn write(&mut self, buf: &[u8]) -> io::Result<usize> {
        self.turn()?;
        Ok(buf.len().min(1))
    }

    fn flush(&mut self) -> io::Result<()> {
        Ok(())
    }
}

#[test]
fn adapts_a_reader(rt: HostRuntime) -> Result<(), Fail> {
    let mut source = StdSource::new(b"abc".as_slice());
    let bytes = read_all(rt.alloc(), &mut source, 3)?;
    assert_eq!(rt; bytes.as_slice(), b"abc".as_slice());

    let mut flaky = StdSource::new(Flaky { cut: 3 });
    let mut buf = [0; 4];
    assert_eq!(rt; flaky.read(&mut buf), Ok(1));
    assert_eq!(rt; flaky.read(&mut buf), Ok(1));
    assert_eq!(rt; flaky.read(&mut buf), Err(Failed));
    assert_eq!(rt; flaky.read(&mut buf), Ok(1));
    Ok(())
}

#[test]
fn adapts_a_writer(rt: HostRuntime) -> Result<(), Fail> {
    let mut output = StdSink::new(rt.stdout());
    assert_eq!(rt; write_whole(&mut output, b"abc\n"), Ok(()));

    let mut flaky = StdSink::new(Flaky { cut: 3 });
    assert_eq!(rt; write_whole(&mut flaky, b"abc"), Err(Failed));
    assert_eq!(rt; write_whole(&mut flaky, b"abc"), Ok(()));

    let mut room = [0; 2];
    let mut full = StdSink::new(room.as_mut_slice());
    assert_eq!(rt; full.write(b"abc"), Ok(2));
    assert_eq!(rt; full.write(b"c"), Err(Failed));
    assert_eq!(rt; full.write(b""), Ok(0));
    Ok(())
}

fn one_file(alloc: Global, name: &str, text: &str) -> Result<Vec<(String, Vec<u8>)>, AllocError> {
    let mut files = Vec::new(alloc);
    let name = String::from_str(alloc, name)?;
    let bytes = Vec::from_slice(alloc, text.as_bytes())?;
    files.push((name, bytes))?;
    Ok(files)
}

#[test]
fn fetches_a_file_by_its_name(rt: HostRuntime) -> Result<(), Fail> {
    let fail = vec![in rt.alloc(); 4u64]?;
    let mut folder = MemFolder::new(one_file(rt.alloc(), "a", "x")?, fail);
    let bytes = folder.fetch(rt.alloc(), "a", 1)?;
    assert_eq!(rt; bytes.as_slice(), b"x".as_slice());
    for (name, limit, want) in [
        ("a", 0, FetchFault::TooLong),
        ("b", 1, FetchFault::NotThere),
        ("a", 1, FetchFault::Failed),
    ] {
        match folder.fetch(rt.alloc(), name, limit) {
            Err(fault) => assert_eq!(rt; fault, want),
            Ok(_) => assert!(rt; false, "at {name} and {limit}"),
        }
    }

    let mut plain = PlainFolder::new(one_file(rt.alloc(), "a", "x")?);
    let bytes = plain.fetch(rt.alloc(), "a", 1)?;
    assert_eq!(rt; bytes.as_slice(), b"x".as_slice());
    Ok(())
}

#[test]
fn fetches_real_files(rt: HostRuntime) -> Result<(), Fail> {
    let name = "byte_streams_test.txt";
    fs::write(&rt, name, b"xyz".as_slice())?;
    let mut folder = StdFolder::new(rt.clone()?);
    let bytes = folder.fetch(rt.alloc(), name, 3)?;
    let too_long = folder.fetch(rt.alloc(), name, 2).err();
    let no_file = folder.fetch(rt.alloc(), ".", 3).err();
    fs::remove_file(&rt, name)?;
    let not_there = folder.fetch(rt.alloc(), name, 3).err();
    assert_eq!(rt; bytes.as_slice(), b"xyz".as_slice());
    assert_eq!(rt; too_long, Some(FetchFault::TooLong));
    assert_eq!(rt; no_file, Some(FetchFault::Failed));
    assert_eq!(rt; not_there, Some(FetchFault::Failed));
    Ok(())
}
