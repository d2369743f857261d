//! Why a run stops before its end.

use byte_streams::Failed;
use std::alloc::AllocError;

/// Why a run stops before its end.
#[derive(Clone, Copy, Debug, PartialEq, Eq)]
pub enum Stop {
    /// The input could not be read: status 5.
    Read,
    /// The output could not be written: status 6.
    Write,
    /// There was no memory: status 7.
    Memory,
}

impl From<Failed> for Stop {
    ghost use Rattle.std.specs.Prelude.{◌≡◌};
    ghost use Rattle.puncalc_program.specs.declared.stop.Stop.{Stop};

    ghost from_gives = { λ _ stop. stop ≡ Stop.Write };

    fn from(_failed: Failed) -> Stop {
        Stop::Write
    }
}

impl From<AllocError> for Stop {
    ghost use Rattle.std.specs.Prelude.{◌≡◌};
    ghost use Rattle.puncalc_program.specs.declared.stop.Stop.{Stop};

    ghost from_gives = { λ _ stop. stop ≡ Stop.Memory };

    fn from(_error: AllocError) -> Stop {
        Stop::Memory
    }
}
