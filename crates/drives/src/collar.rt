ghost use Rattle.drives.specs.Joined.{all_held};
ghost use Rattle.drives.specs.Kept.{all_held_sound};

use crate::geometry::Geometry;
use crate::numbers::PhysicalCylinder;
use crate::parts::{Direction, Line, Part, Place};
use crate::string::DriveString;

// A string with every unit held: write protect is 1 for good.
#[derive(Drop)]
pub struct Collar<S> {
    pub string: S,
}

// All but the protect line is as below; what a string passes on it writes out.
#[tactic(auto, using(crate::proofs::Collars::held))]
impl<S: DriveString> DriveString for Collar<S> {
    ghost meaning = { λ c. all_held (S.DriveString.meaning c.string) };

    ghost rest = { λ c. S.DriveString.rest c.string };

    ghost sound = { λ c. all_held_sound (S.DriveString.meaning c.string) (S.DriveString.sound c.string) };

    fn units(&self) -> u8 {
        self.string.units()
    }

    fn geometry(&self, unit: u8) -> Geometry {
        self.string.geometry(unit)
    }

    fn cylinder(&self, unit: u8) -> PhysicalCylinder {
        self.string.cylinder(unit)
    }

    fn line(&self, unit: u8, line: Line) -> bool {
        match line {
            Line::Protect => unit < self.string.units(),
            Line::Ready | Line::Fault => self.string.line(unit, line),
        }
    }

    fn mark(&self, place: Place, part: Part) -> bool {
        self.string.mark(place, part)
    }

    fn byte(&self, place: Place, part: Part, i: u16) -> u8 {
        self.string.byte(place, part, i)
    }

    fn pulse(&mut self, unit: u8, direction: Direction) {
        self.string.pulse(unit, direction)
    }

    fn set_line(&mut self, unit: u8, line: Line, value: bool) {
        match line {
            Line::Protect => (),
            Line::Ready | Line::Fault => self.string.set_line(unit, line, value),
        }
    }

    fn set_mark(&mut self, place: Place, part: Part, value: bool) {
        self.string.set_mark(place, part, value)
    }

    fn set_byte(&mut self, place: Place, part: Part, i: u16, value: u8) {
        self.string.set_byte(place, part, i, value)
    }
}
