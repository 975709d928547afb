//! Why there is no plan, no scene, or no state. What the call was given is then dropped, and
//! nothing is left of what it had made; a scene that is only borrowed stays as it is.
ghost use Rattle.std.specs.Prelude.{◌≡◌, Some};
ghost use Rattle.cs_micro.specs.declared.fault.MicroFault.{MicroFault};
ghost use Rattle.cs_plan.specs.Faults.{fault_text, make_fault_text, of_breaking, of_planning};
ghost use Rattle.cs_plan.specs.Faults.{scene_fault_text};
ghost use Rattle.cs_plan.specs.declared.fault.MakeFault.TheVariants as make;
ghost use Rattle.cs_plan.specs.declared.fault.PlanFault.TheVariants as plan;
ghost use Rattle.cs_plan.specs.declared.fault.SceneFault.TheVariants as scene;

use cs_micro::MicroFault;
use std::alloc::AllocError;
use std::fmt;

/// Why there is no plan. Of several faults, the first in this order is reported.
#[derive(Clone, Copy, Debug, PartialEq, Eq)]
pub enum PlanFault {
    /// The plan would have more than PLAN_STATES states.
    PlanTooLarge,
    /// The pick of this place, from 0, is refused: a crash can't leave it, its places don't ascend
    /// strictly, or the trace has no micro-operation at one of them. The earlier picks are allowed.
    PickNotAllowed(u32),
    /// Out of memory.
    Memory,
}

impl fmt::Display for PlanFault {
    ghost output = { λ fault. Some (fault_text fault) };

    /// Prints why there is no plan, as the program reports it.
    fn fmt<W: fmt::Write>(&self, f: &mut fmt::Formatter<W>) -> fmt::Result {
        match self {
            PlanFault::PlanTooLarge => f.write_str("plan too large"),
            PlanFault::PickNotAllowed(pick) => write!(f, "pick {pick} not allowed"),
            PlanFault::Memory => f.write_str("out of memory"),
        }
    }
}

impl From<AllocError> for PlanFault {
    ghost from_gives = { λ _ fault. fault ≡ plan.Memory };

    /// A failed allocation is Memory.
    fn from(_refused: AllocError) -> PlanFault {
        PlanFault::Memory
    }
}

impl std::error::Error for PlanFault {}

/// Why there is no scene.
#[derive(Clone, Copy, Debug, PartialEq, Eq)]
pub enum SceneFault {
    /// The trace has more than MICRO_OPERATIONS micro-operations.
    TooMany,
    /// The trace's plan would have more than PLAN_STATES states.
    PlanTooLarge,
    /// The pick of this place, from 0, is refused, for the reasons of PlanFault's PickNotAllowed.
    PickNotAllowed(u32),
    /// Out of memory.
    Memory,
}

impl fmt::Display for SceneFault {
    ghost output = { λ fault. Some (scene_fault_text fault) };

    /// Prints why there is no scene, as the program reports it.
    fn fmt<W: fmt::Write>(&self, f: &mut fmt::Formatter<W>) -> fmt::Result {
        match self {
            SceneFault::TooMany => f.write_str("too many micro-operations"),
            SceneFault::PlanTooLarge => f.write_str("plan too large"),
            SceneFault::PickNotAllowed(pick) => write!(f, "pick {pick} not allowed"),
            SceneFault::Memory => f.write_str("out of memory"),
        }
    }
}

impl From<MicroFault> for SceneFault {
    ghost from_gives = { λ given fault. fault ≡ of_breaking given };

    /// The fault of a scene with the same name.
    fn from(fault: MicroFault) -> SceneFault {
        match fault {
            MicroFault::TooMany => SceneFault::TooMany,
            MicroFault::Memory => SceneFault::Memory,
        }
    }
}

impl From<PlanFault> for SceneFault {
    ghost from_gives = { λ given fault. fault ≡ of_planning given };

    /// The fault of a scene with the same name, with the same pick.
    fn from(fault: PlanFault) -> SceneFault {
        match fault {
            PlanFault::PlanTooLarge => SceneFault::PlanTooLarge,
            PlanFault::PickNotAllowed(pick) => SceneFault::PickNotAllowed(pick),
            PlanFault::Memory => SceneFault::Memory,
        }
    }
}

impl From<AllocError> for SceneFault {
    ghost from_gives = { λ _ fault. fault ≡ scene.Memory };

    /// A failed allocation is Memory.
    fn from(_refused: AllocError) -> SceneFault {
        SceneFault::Memory
    }
}

impl std::error::Error for SceneFault {}

/// Why a state can't be made.
#[derive(Clone, Copy, Debug, PartialEq, Eq)]
pub enum MakeFault {
    /// The plan has no state with that number.
    NoSuchState,
    /// Out of memory.
    Memory,
}

impl fmt::Display for MakeFault {
    ghost output = { λ fault. Some (make_fault_text fault) };

    /// Prints why a state can't be made, as the program reports it.
    fn fmt<W: fmt::Write>(&self, f: &mut fmt::Formatter<W>) -> fmt::Result {
        f.write_str(match self {
            MakeFault::NoSuchState => "no such state",
            MakeFault::Memory => "out of memory",
        })
    }
}

impl From<AllocError> for MakeFault {
    ghost from_gives = { λ _ fault. fault ≡ make.Memory };

    /// A failed allocation is Memory.
    fn from(_refused: AllocError) -> MakeFault {
        MakeFault::Memory
    }
}

impl std::error::Error for MakeFault {}
