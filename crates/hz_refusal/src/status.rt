//! How a call of the program ends.
ghost use Rattle.std.specs.Prelude.{◌≡◌};
ghost use Rattle.hz_refusal.specs.Ending.{code_of, status_after, status_flushed};

use hz_outside::PutFault;

/// How a call of the program ends. The exit codes are 0 to 9 in this order.
#[derive(Clone, Copy, Debug, PartialEq, Eq)]
pub enum Status {
    /// The job was done, and its whole text was written.
    Done,
    /// A step or a cycle of a run text is refused.
    No,
    /// The words name no job.
    Words,
    /// The first text is no netlist.
    Netlist,
    /// The second text is not what the job asks for.
    Text,
    /// The start leaves a gate open or unstable.
    Start,
    /// A file was not read.
    File,
    /// A file has too many bytes.
    TooLong,
    /// The output was not taken.
    Sink,
    /// Memory ran out.
    Memory,
}

/// How the work on a text ended: the status, and the line of the text that a refusal names, 0 if it names none.
#[derive(Clone, Copy, Debug)]
pub struct Ending {
    pub status: Status,
    pub line: u32,
}

impl Status {
    /// The exit code.
    pub fn code(self) -> u8
        ensures { result ≡ code_of self }
    {
        self as u8
    }
}

// The status of a job whose text was put, or was not.
pub fn status_after(put: Result<(), PutFault>, status: Status) -> Status
    ensures { result ≡ status_after put status }
{
    match put {
        Ok(()) => status,
        Err(PutFault::Failed) => Status::Sink,
        Err(PutFault::Memory) => Status::Memory,
    }
}

// The status of a call after its last flush. If the output failed before, the flush changes nothing.
pub fn status_flushed(flush: Result<(), PutFault>, status: Status) -> Status
    ensures { result ≡ status_flushed flush status }
{
    match status {
        Status::Sink => Status::Sink,
        _ => status_after(flush, status),
    }
}
