use byte_sink::WriteFault;
use std::alloc::{AllocError, AllocFailed};
use thiserror::Error;

/// Why the world did not do what it was asked.
#[derive(Clone, Copy, Debug, PartialEq, Eq, Error)]
pub enum WorldFault {
    /// A file or the output failed.
    #[error("a file or the output failed")]
    Failed,

    /// There was no memory.
    #[error("out of memory")]
    NoMemory,
}

impl From<AllocError> for WorldFault {
    ghost use Rattle.std.specs.Prelude.{◌≡◌};
    ghost use Rattle.worlds.specs.declared.world_fault.WorldFault.TheVariants.{NoMemory};

    ghost from_gives = { λ _ e. e ≡ NoMemory };

    fn from(_: AllocError) -> Self {
        WorldFault::NoMemory
    }
}

impl<T: Drop> From<AllocFailed<T>> for WorldFault {
    ghost use Rattle.std.specs.Prelude.{◌≡◌};
    ghost use Rattle.worlds.specs.declared.world_fault.WorldFault.TheVariants.{NoMemory};

    ghost from_gives = { λ _ e. e ≡ NoMemory };

    fn from(_: AllocFailed<T>) -> Self {
        WorldFault::NoMemory
    }
}

impl From<WriteFault> for WorldFault {
    ghost use Rattle.std.specs.Prelude.{◌≡◌};
    ghost use Rattle.worlds.specs.Faults.{fault_of};

    ghost from_gives = { λ f e. e ≡ fault_of f };

    fn from(fault: WriteFault) -> Self {
        match fault {
            WriteFault::Failed => WorldFault::Failed,
            WriteFault::NoMemory => WorldFault::NoMemory,
        }
    }
}
