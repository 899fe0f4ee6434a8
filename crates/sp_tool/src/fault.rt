//! Why a call isn't done.

ghost use Rattle.std.specs.Prelude.{◌≡◌};
ghost use Rattle.sp_tool.specs.Faults.{status_of, line_of};

use crate::status::Status;
use sp_dd::NoMemory;
use std::alloc::AllocError;

/// Why a call isn't done, with the line that is told.
#[derive(Drop)]
pub enum Fault {
    Usage,
    NoMemory,
    /// The line may hold any bytes of the file's names.
    Refused(Vec<u8>),
    ReadFault(String),
    WriteFault,
    /// So may this one.
    NotLegal(Vec<u8>),
}

impl From<AllocError> for Fault {
    ghost use Rattle.sp_tool.specs.declared.fault.Fault.{Fault};

    ghost from_gives = { λ _ e. e ≡ Fault.NoMemory };

    fn from(_: AllocError) -> Self {
        Fault::NoMemory
    }
}

impl From<NoMemory> for Fault {
    ghost use Rattle.sp_tool.specs.declared.fault.Fault.{Fault};

    ghost from_gives = { λ _ e. e ≡ Fault.NoMemory };

    fn from(_: NoMemory) -> Self {
        Fault::NoMemory
    }
}

impl Fault {
    /// The status of a call that ends so.
    pub fn status(&self) -> Status
        ensures { result ≡ status_of self.now }
    {
        match self {
            Fault::Usage => Status::Usage,
            Fault::NoMemory => Status::NoMemory,
            Fault::Refused(_) => Status::Refused,
            Fault::ReadFault(_) => Status::ReadFault,
            Fault::WriteFault => Status::WriteFault,
            Fault::NotLegal(_) => Status::NotLegal,
        }
    }

    /// The line that is told.
    pub fn line(&self) -> &[u8]
        ensures { result.now ≡ line_of self.now }
    {
        match self {
            Fault::Usage => b"perseus: usage: try perseus --help\n",
            Fault::NoMemory => b"perseus: out of memory\n",
            Fault::Refused(line) => line.as_slice(),
            Fault::ReadFault(line) => line.as_bytes(),
            Fault::WriteFault => b"perseus: cannot write\n",
            Fault::NotLegal(line) => line.as_slice(),
        }
    }
}
