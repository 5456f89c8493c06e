ghost use Rattle.drives.specs.Sound.{loan};

use crate::geometry::Geometry;
use crate::numbers::PhysicalCylinder;
use crate::parts::{Direction, Line, Part, Place};
use crate::string::DriveString;

// A string that is lent is the string itself.
impl<S: DriveString> DriveString for &mut S {
    ghost meaning = { λ s. S.DriveString.meaning s.now };

    ghost rest = { λ s. loan s.ghost_name (S.DriveString.rest s.now) };

    ghost sound = { λ s. S.DriveString.sound s.now };

    fn units(&self) -> u8 {
        (**self).units()
    }

    fn geometry(&self, unit: u8) -> Geometry {
        (**self).geometry(unit)
    }

    fn cylinder(&self, unit: u8) -> PhysicalCylinder {
        (**self).cylinder(unit)
    }

    fn line(&self, unit: u8, line: Line) -> bool {
        (**self).line(unit, line)
    }

    fn mark(&self, place: Place, part: Part) -> bool {
        (**self).mark(place, part)
    }

    fn byte(&self, place: Place, part: Part, i: u16) -> u8 {
        (**self).byte(place, part, i)
    }

    fn pulse(&mut self, unit: u8, direction: Direction) {
        (**self).pulse(unit, direction)
    }

    fn set_line(&mut self, unit: u8, line: Line, value: bool) {
        (**self).set_line(unit, line, value)
    }

    fn set_mark(&mut self, place: Place, part: Part, value: bool) {
        (**self).set_mark(place, part, value)
    }

    fn set_byte(&mut self, place: Place, part: Part, i: u16, value: u8) {
        (**self).set_byte(place, part, i, value)
    }
}
