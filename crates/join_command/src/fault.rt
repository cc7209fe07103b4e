//! Why reports aren't joined.

ghost use Rattle.std.specs.Prelude.{◌≡◌};
ghost use Rattle.join_command.specs.declared.fault.JoinFault.TheVariants.{Run};

use case_core::CaseFault;
use cube_report::{DeviceFault, Fault};
use std::alloc::AllocError;

/// Why reports aren't joined: what a run of `cubeboard` may end with, too, or a RECORD that is
/// none.
#[derive(Clone, Copy, Debug, PartialEq, Eq)]
pub enum JoinFault {
    /// The first fault of FILE or the formula's own file, want of memory, or a device that failed.
    Run(Fault),
    /// The RECORD of this number, from 1, isn't one of the bundle's formula and cubes.
    Stranger(u64),
}

impl From<Fault> for JoinFault {
    ghost from_gives = { λ fault told. told ≡ Run fault };

    fn from(fault: Fault) -> JoinFault {
        JoinFault::Run(fault)
    }
}

impl From<DeviceFault> for JoinFault {
    ghost use Rattle.cube_report.specs.Faults.{fault_of_device};

    ghost from_gives = { λ fault told. told ≡ Run (fault_of_device fault) };

    fn from(fault: DeviceFault) -> JoinFault {
        JoinFault::Run(Fault::from(fault))
    }
}

impl From<AllocError> for JoinFault {
    ghost use Rattle.cube_report.specs.Fault.TheVariants.{Memory};

    ghost from_gives = { λ _ told. told ≡ Run Memory };

    fn from(_error: AllocError) -> JoinFault {
        JoinFault::Run(Fault::Memory)
    }
}

impl From<CaseFault> for JoinFault {
    ghost use Rattle.cube_report.specs.Faults.{fault_of_case};

    ghost from_gives = { λ fault told. told ≡ Run (fault_of_case fault) };

    fn from(fault: CaseFault) -> JoinFault {
        JoinFault::Run(Fault::from(fault))
    }
}
