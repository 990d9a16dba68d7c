//! Why a layer is not added.
ghost use Rattle.std.specs.Prelude.{◌≡◌};
ghost use Rattle.cust_data.specs.Faults.{code_of};

use std::alloc::{AllocError, AllocFailed};
use thiserror::Error;

/// Why a layer was not added.
#[derive(Clone, Copy, Debug, PartialEq, Eq, Error)]
pub enum LayerFault {
    /// A layer of this name is there.
    #[error("a layer of this name is there")]
    LayerExists,
    /// There are sixteen layers.
    #[error("there are sixteen layers")]
    TooManyLayers,
    /// The name isn't 1 to 63 bytes between 33 and 126.
    #[error("a layer's name has 1 to 63 bytes between 33 and 126")]
    BadName,
    /// The width isn't 1 to 4.
    #[error("a layer's width is 1 to 4")]
    BadWidth,
    /// Memory ran out.
    #[error("out of memory")]
    NoMemory,
}

impl LayerFault {
    /// The fault's number: 1 `LayerExists`, 2 `TooManyLayers`, 3 `BadName`, 4 `BadWidth`, and 0 `NoMemory`.
    pub fn code(self) -> u32
        ensures { result ≡ code_of self }
    {
        match self {
            LayerFault::LayerExists => 1,
            LayerFault::TooManyLayers => 2,
            LayerFault::BadName => 3,
            LayerFault::BadWidth => 4,
            LayerFault::NoMemory => 0,
        }
    }
}

impl From<AllocError> for LayerFault {
    ghost use Rattle.std.specs.Prelude.{◌≡◌};
    ghost use Rattle.cust_data.specs.declared.fault.LayerFault.TheVariants.{NoMemory};

    ghost from_gives = { λ _ e. e ≡ NoMemory };

    fn from(_: AllocError) -> Self {
        LayerFault::NoMemory
    }
}

impl<T: Drop> From<AllocFailed<T>> for LayerFault {
    ghost use Rattle.std.specs.Prelude.{◌≡◌};
    ghost use Rattle.cust_data.specs.declared.fault.LayerFault.TheVariants.{NoMemory};

    ghost from_gives = { λ _ e. e ≡ NoMemory };

    fn from(_: AllocFailed<T>) -> Self {
        LayerFault::NoMemory
    }
}
