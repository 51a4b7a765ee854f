//! The status of a command that has ended.
ghost use Rattle.std.specs.Prelude.{◌≡◌};
ghost use Rattle.command_ends.specs.Statuses.{IsFinished, code_of, status_at_end};

use std::alloc::{AllocError, Global};
use texts::Twin;

/// How a command ended. The number of each is its exit code.
#[derive(Clone, Copy, Debug, PartialEq, Eq)]
pub enum Status {
    /// Every entry was accepted.
    Done = 0,
    /// At least one entry was refused, or `import` refused its document, and nothing stopped the call.
    SomeRefused = 1,
    /// The words name no command.
    Usage = 2,
    /// The program part is refused.
    ProgramRefused = 3,
    /// The disk holds no store, or one that is refused, or the log is full. A command that makes a store: the disk is
    /// not empty.
    StoreRefused = 4,
    /// The source failed.
    SourceFault = 5,
    /// The sink failed, or took nothing of a piece that is not empty.
    SinkFault = 6,
    /// The disk failed.
    DiskFault = 7,
    /// The source has more than 2^30 bytes.
    InputTooLong = 8,
    /// Memory ran out.
    NoMemory = 9,
}

impl Status {
    /// The exit code.
    pub fn code(self) -> u8
        ensures { result ≡ code_of self }
    {
        self as u8
    }

    /// The status of a command that came to its end: whether an entry was refused.
    pub fn at_end(refused: bool) -> Status
        ensures end { result ≡ status_at_end refused }
        ensures finished { IsFinished result }
    {
        if refused {
            Status::SomeRefused
        } else {
            Status::Done
        }
    }
}

impl Twin for Status {
    ghost use Rattle.command_ends.specs.declared.status.Status.{Status};

    ghost Meaning = { Status };

    ghost meaning = { λ status. status };

    fn twin(&self, _alloc: Global) -> Result<Self, AllocError> {
        Ok(*self)
    }
}
