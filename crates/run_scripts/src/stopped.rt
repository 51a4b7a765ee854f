//! What stops a run before its end.
ghost use Rattle.std.specs.Prelude.{◌≡◌};
ghost use Rattle.run_scripts.specs.LineStops.{status_of, stop_of};

use command_ends::Status;
use lens_io::TakeFault;

/// Why a run did not come to the end of its input.
#[derive(Clone, Copy, Debug, PartialEq, Eq)]
pub enum Stopped {
    /// The source failed.
    SourceFault,
    /// The source has more than 2^30 bytes.
    TooLong,
    /// The sink failed, or took nothing of a piece that is not empty.
    SinkFault,
    /// Memory ran out.
    NoMemory,
}

impl Stopped {
    /// What a fault at a piece of the input stops a run by.
    pub fn at_piece(fault: TakeFault) -> Stopped
        ensures { result ≡ stop_of fault }
    {
        match fault {
            TakeFault::SourceFault => Stopped::SourceFault,
            TakeFault::TooLong => Stopped::TooLong,
            TakeFault::NoMemory => Stopped::NoMemory,
        }
    }

    /// The status of a command that this stopped.
    pub fn status(self) -> Status
        ensures { result ≡ status_of self }
    {
        match self {
            Stopped::SourceFault => Status::SourceFault,
            Stopped::TooLong => Status::InputTooLong,
            Stopped::SinkFault => Status::SinkFault,
            Stopped::NoMemory => Status::NoMemory,
        }
    }
}
