// Why values or bytes are no plan.
ghost use Rattle.std.specs.Prelude.{◌≡◌};
ghost use Rattle.plans.specs.declared.fault.PlanFault.TheVariants.{Memory};

use std::alloc::{AllocError, AllocFailed};

// In the order of the tests. Stages are counted from 1.
#[derive(Clone, Copy, Debug, PartialEq, Eq)]
pub enum PlanFault {
    Short,
    NotAPlan,
    UnknownVersion(u8),
    UnknownMovement { stage: u8, code: u8 },
    NotPadding { position: usize },
    NoJunction,
    NoNumber,
    CycleOutOfRange(u8),
    OffsetOutOfRange(u8),
    StageCount(usize),
    GreenTooShort { stage: u8, seconds: u8 },
    IntergreenOutOfRange { stage: u8, seconds: u8 },
    CycleNotFilled { seconds: u16 },
    Memory,
}

impl From<AllocError> for PlanFault {
    ghost from_gives = { λ _ r. r ≡ Memory };

    fn from(_e: AllocError) -> Self {
        Self::Memory
    }
}

impl<T: Drop> From<AllocFailed<T>> for PlanFault {
    ghost from_gives = { λ _ r. r ≡ Memory };

    fn from(_e: AllocFailed<T>) -> PlanFault {
        PlanFault::Memory
    }
}

mod display;
