ghost use Rattle.drives.specs.Bays.{bay_meaning, bay_rest, bay_sound};

use crate::collar::Collar;
use crate::geometry::Geometry;
use crate::numbers::PhysicalCylinder;
use crate::parts::{Direction, Line, Part, Place};
use crate::string::DriveString;

// A bay of a rack: what somebody put into it, with or without a collar.
#[derive(Drop)]
pub enum Bay<S> {
    Empty,
    Free(S),
    Held(Collar<S>),
}

// Each method has its three arms: over an `Option` of a string, with or without a collar, they would be ten methods twice.
#[tactic(auto, using(crate::proofs::Bays::shows_nothing, crate::proofs::Bays::changes_nothing))]
impl<S: DriveString> DriveString for Bay<S> {
    ghost meaning = { bay_meaning S.DriveString.meaning };

    ghost rest = { bay_rest S.DriveString.rest };

    ghost sound = { bay_sound S.DriveString.meaning S.DriveString.sound };

    fn units(&self) -> u8 {
        match self {
            Bay::Empty => 0,
            Bay::Free(drive) => drive.units(),
            Bay::Held(drive) => drive.units(),
        }
    }

    fn geometry(&self, unit: u8) -> Geometry {
        match self {
            Bay::Empty => Geometry::none(),
            Bay::Free(drive) => drive.geometry(unit),
            Bay::Held(drive) => drive.geometry(unit),
        }
    }

    fn cylinder(&self, unit: u8) -> PhysicalCylinder {
        match self {
            Bay::Empty => PhysicalCylinder(0),
            Bay::Free(drive) => drive.cylinder(unit),
            Bay::Held(drive) => drive.cylinder(unit),
        }
    }

    fn line(&self, unit: u8, line: Line) -> bool {
        match self {
            Bay::Empty => false,
            Bay::Free(drive) => drive.line(unit, line),
            Bay::Held(drive) => drive.line(unit, line),
        }
    }

    fn mark(&self, place: Place, part: Part) -> bool {
        match self {
            Bay::Empty => false,
            Bay::Free(drive) => drive.mark(place, part),
            Bay::Held(drive) => drive.mark(place, part),
        }
    }

    fn byte(&self, place: Place, part: Part, i: u16) -> u8 {
        match self {
            Bay::Empty => 0,
            Bay::Free(drive) => drive.byte(place, part, i),
            Bay::Held(drive) => drive.byte(place, part, i),
        }
    }

    fn pulse(&mut self, unit: u8, direction: Direction) {
        match self {
            Bay::Empty => (),
            Bay::Free(drive) => drive.pulse(unit, direction),
            Bay::Held(drive) => drive.pulse(unit, direction),
        }
    }

    fn set_line(&mut self, unit: u8, line: Line, value: bool) {
        match self {
            Bay::Empty => (),
            Bay::Free(drive) => drive.set_line(unit, line, value),
            Bay::Held(drive) => drive.set_line(unit, line, value),
        }
    }

    fn set_mark(&mut self, place: Place, part: Part, value: bool) {
        match self {
            Bay::Empty => (),
            Bay::Free(drive) => drive.set_mark(place, part, value),
            Bay::Held(drive) => drive.set_mark(place, part, value),
        }
    }

    fn set_byte(&mut self, place: Place, part: Part, i: u16, value: u8) {
        match self {
            Bay::Empty => (),
            Bay::Free(drive) => drive.set_byte(place, part, i, value),
            Bay::Held(drive) => drive.set_byte(place, part, i, value),
        }
    }
}
