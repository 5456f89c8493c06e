// A signal plan: legal by its type.
ghost use Rattle.std.specs.Prelude.{◌≡◌, true};
ghost use Rattle.plans.specs.Rules.{data_of, passes};

use crate::stage::Stage;

// The bytes that a record begins with, and the version of its format.
const MARKER: [u8; 2] = *b"SP";

const VERSION: u8 = 1;

// The values of a plan, legal or not.
#[derive(Drop)]
pub struct PlanValues {
    pub junction: u16,
    pub number: u8,
    // In seconds, as all times. The offset is how far the cycle starts after the area's clock.
    pub cycle: u8,
    pub offset: u8,
    pub stages: Vec<Stage>,
}

#[derive(Drop)]
pub struct Plan {
    values: PlanValues,
    ghost legal: { passes (data_of values) ≡ true },
}

pub mod decode;
mod display;
pub mod encode;
pub mod values;
