//! Why bytes weren't read or written.

use std::alloc::{AllocError, AllocFailed};
use thiserror::Error;

/// Why bytes weren't read or written.
#[derive(Clone, Copy, PartialEq, Eq, Debug, Error)]
pub enum DeviceFault {
    /// A growth was refused.
    #[error("memory")]
    Memory,
    /// A call on the device failed.
    #[error("device")]
    Device,
}

impl From<AllocError> for DeviceFault {
    ghost use Rattle.std.specs.Prelude.{◌≡◌};
    ghost use Rattle.byte_flow.specs.declared.fault.DeviceFault.TheVariants.{Memory};

    ghost from_gives = { λ _ fault. fault ≡ Memory };

    fn from(_error: AllocError) -> Self {
        DeviceFault::Memory
    }
}

impl<T: Drop> From<AllocFailed<T>> for DeviceFault {
    ghost use Rattle.std.specs.Prelude.{◌≡◌};
    ghost use Rattle.byte_flow.specs.declared.fault.DeviceFault.TheVariants.{Memory};

    ghost from_gives = { λ _ fault. fault ≡ Memory };

    fn from(_error: AllocFailed<T>) -> Self {
        DeviceFault::Memory
    }
}
