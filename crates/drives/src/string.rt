ghost use Rattle.std.specs.Prelude.{◌≡◌, List, length};
ghost use Rattle.drives.specs.Drives.{Drive, drive, shape_of, mark_here, byte_here};
ghost use Rattle.drives.specs.Changes.{changed, pulsed, with_line, with_mark, with_byte};
ghost use Rattle.drives.specs.Sound.{Sound, Rest};

use crate::geometry::Geometry;
use crate::numbers::PhysicalCylinder;
use crate::parts::{Direction, Line, Part, Place};

// A string of drives. Questions answer what stands there and alter nothing; a change alters one thing and nothing else.
// All arguments are legal: what does not exist shows nothing, and a change there does nothing.
pub trait DriveString {
    // The units, by their numbers.
    ghost meaning: { Self → List Drive };

    // Memory that the meaning does not name. Nothing alters it.
    ghost rest: { Self → Rest };

    fn units(&self) -> u8
        ensures { result ≡ length (meaning self.now) };

    fn geometry(&self, unit: u8) -> Geometry
        ensures { shape_of result ≡ (drive (meaning self.now) unit).shape };

    fn cylinder(&self, unit: u8) -> PhysicalCylinder
        ensures { result.0 ≡ (drive (meaning self.now) unit).cylinder };

    fn line(&self, unit: u8, line: Line) -> bool
        ensures { result ≡ (drive (meaning self.now) unit).lines line };

    fn mark(&self, place: Place, part: Part) -> bool
        ensures { result ≡ mark_here (drive (meaning self.now) place.unit) part place.head.0 place.slot.0 };

    fn byte(&self, place: Place, part: Part, i: u16) -> u8
        ensures { result ≡ byte_here (drive (meaning self.now) place.unit) part place.head.0 place.slot.0 i };

    // One step pulse.
    fn pulse(&mut self, unit: u8, direction: Direction)
        ensures meaning { meaning self.new ≡ changed (meaning self.old) unit (pulsed direction) }
        ensures rest { rest self.new ≡ rest self.old };

    fn set_line(&mut self, unit: u8, line: Line, value: bool)
        ensures meaning { meaning self.new ≡ changed (meaning self.old) unit (with_line line value) }
        ensures rest { rest self.new ≡ rest self.old };

    fn set_mark(&mut self, place: Place, part: Part, value: bool)
        ensures meaning { meaning self.new ≡ changed (meaning self.old) place.unit (with_mark part place.head.0 place.slot.0 value) }
        ensures rest { rest self.new ≡ rest self.old };

    fn set_byte(&mut self, place: Place, part: Part, i: u16, value: u8)
        ensures meaning { meaning self.new ≡ changed (meaning self.old) place.unit (with_byte part place.head.0 place.slot.0 i value) }
        ensures rest { rest self.new ≡ rest self.old };

    // Whatever stands on it is sound.
    ghost sound: { (string : Self) → Sound (meaning string) };
}
