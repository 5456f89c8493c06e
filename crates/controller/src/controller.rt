mod calls;
mod ending;
mod starting;
mod turns;

use registers::running::Running;
use registers::setting::Setting;
use registers::status::Flags;
use registers::units::UnitRecords;
use transfers::path::DataPath;

// What the controller keeps besides its buffer and its string.
#[derive(Clone, Copy)]
pub struct Registers {
    pub running: Option<Running>,
    pub flags: Flags,
    pub setting: Option<Setting>,
    pub units: UnitRecords,
    // while no command runs, the buffer holds results for the host, and not parameters from it
    pub results: bool,
}

// The controller owns its string of drives, so that nobody else can reach it until `end` gives it back.
#[derive(Drop)]
pub struct Controller<S> {
    path: DataPath<S>,
    registers: Registers,
}
