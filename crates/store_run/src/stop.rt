//! What stops a command that answers a journal over a store.
ghost use Rattle.std.specs.Prelude.{◌≡◌};
ghost use Rattle.gate_log.specs.CallEnds.{IsAppendFault};
ghost use Rattle.store_run.specs.Stopping.{stop_of_log, stop_of_input, IsOwnStop};

use gate_log::LogFault;
use lens_io::TakeFault;

/// What stops a command before its end.
#[derive(Clone, Copy, Debug, PartialEq, Eq)]
pub enum Stop {
    /// The log is full.
    LogFull,
    /// The source failed.
    SourceFault,
    /// The sink failed, or took nothing of a piece that is not empty.
    SinkFault,
    /// The disk failed.
    DiskFault,
    /// The source has more than 2^30 bytes.
    TooLong,
    /// Memory ran out.
    NoMemory,
}

impl Stop {
    /// What a fault of an append stops a command by.
    pub fn at_append(fault: LogFault) -> Stop
        requires { IsAppendFault fault }
        ensures stop { result ≡ stop_of_log fault }
        ensures own { IsOwnStop result }
    {
        match fault {
            LogFault::LogFull => Stop::LogFull,
            LogFault::NoMemory => Stop::NoMemory,
            LogFault::DiskFault => Stop::DiskFault,
            LogFault::NotALog | LogFault::BadRecord { .. } | LogFault::LogExists => unreachable!(),
        }
    }

    /// What a fault at a piece of the input stops a command by.
    pub fn at_piece(fault: TakeFault) -> Stop
        ensures { result ≡ stop_of_input fault }
    {
        match fault {
            TakeFault::SourceFault => Stop::SourceFault,
            TakeFault::TooLong => Stop::TooLong,
            TakeFault::NoMemory => Stop::NoMemory,
        }
    }
}
