//! The faults of streams.
ghost use Rattle.std.specs.Prelude.{◌≡◌};

use std::alloc::AllocError;
use std::error::Error;
use std::fmt;

/// The fault of a device: it gave or took no bytes. The count of its stream tells that it came.
#[derive(Clone, Copy, Debug, PartialEq, Eq)]
pub struct Failed;

/// Why not everything could be read.
#[derive(Clone, Copy, Debug, PartialEq, Eq)]
pub enum ReadFault {
    /// A read failed.
    Failed,
    /// There are more bytes than the limit allows.
    TooLong,
    /// There was no memory for the bytes.
    OutOfMemory,
}

/// Why a file could not be fetched.
#[derive(Clone, Copy, Debug, PartialEq, Eq)]
pub enum FetchFault {
    /// The device failed.
    Failed,
    /// The file has more bytes than the limit allows.
    TooLong,
    /// There was no memory for the bytes.
    OutOfMemory,
    /// The folder has no file of this name.
    NotThere,
}

impl fmt::Display for Failed {
    fn fmt<W: fmt::Write>(&self, f: &mut fmt::Formatter<W>) -> fmt::Result {
        write!(f, "the device failed")
    }
}

impl Error for Failed {}

impl fmt::Display for ReadFault {
    fn fmt<W: fmt::Write>(&self, f: &mut fmt::Formatter<W>) -> fmt::Result {
        match self {
            ReadFault::Failed => write!(f, "a read failed"),
            ReadFault::TooLong => write!(f, "there are too many bytes"),
            ReadFault::OutOfMemory => write!(f, "out of memory"),
        }
    }
}

impl Error for ReadFault {}

impl From<Failed> for ReadFault {
    ghost use Rattle.byte_streams.specs.declared.faults.ReadFault.{ReadFault};

    ghost from_gives = { λ _ fault. fault ≡ ReadFault.Failed };

    fn from(_failed: Failed) -> ReadFault {
        ReadFault::Failed
    }
}

impl From<AllocError> for ReadFault {
    ghost use Rattle.byte_streams.specs.declared.faults.ReadFault.{ReadFault};

    ghost from_gives = { λ _ fault. fault ≡ ReadFault.OutOfMemory };

    fn from(_error: AllocError) -> ReadFault {
        ReadFault::OutOfMemory
    }
}

impl fmt::Display for FetchFault {
    fn fmt<W: fmt::Write>(&self, f: &mut fmt::Formatter<W>) -> fmt::Result {
        match self {
            FetchFault::Failed => write!(f, "the file could not be read"),
            FetchFault::TooLong => write!(f, "the file has too many bytes"),
            FetchFault::OutOfMemory => write!(f, "out of memory"),
            FetchFault::NotThere => write!(f, "there is no such file"),
        }
    }
}

impl Error for FetchFault {}

impl From<Failed> for FetchFault {
    ghost use Rattle.byte_streams.specs.declared.faults.FetchFault.{FetchFault};

    ghost from_gives = { λ _ fault. fault ≡ FetchFault.Failed };

    fn from(_failed: Failed) -> FetchFault {
        FetchFault::Failed
    }
}

impl From<AllocError> for FetchFault {
    ghost use Rattle.byte_streams.specs.declared.faults.FetchFault.{FetchFault};

    ghost from_gives = { λ _ fault. fault ≡ FetchFault.OutOfMemory };

    fn from(_error: AllocError) -> FetchFault {
        FetchFault::OutOfMemory
    }
}
