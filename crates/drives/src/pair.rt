ghost use Rattle.drives.specs.Joined.{joined, left_over};
ghost use Rattle.drives.specs.Sound.{both};
ghost use Rattle.drives.specs.Sides.{SideOf};
ghost use Rattle.drives.specs.Kept.{joined_sound};

use crate::geometry::Geometry;
use crate::numbers::PhysicalCylinder;
use crate::parts::{Direction, Line, Part, Place};
use crate::string::DriveString;

// Two strings joined: the second's units follow the first's, and those past the eighth are missing.
#[derive(Drop)]
pub struct Pair<A, B> {
    pub first: A,
    pub second: B,
}

// Which of the two has a unit, and under which number.
enum Side {
    First(u8),
    Second(u8),
    Neither,
}

fn which_side<A: DriveString, B: DriveString>(pair: &Pair<A, B>, unit: u8) -> Side
    ensures { SideOf (A.DriveString.meaning pair.now.first) (B.DriveString.meaning pair.now.second) unit result }
{
    let first = pair.first.units();
    if unit < first {
        Side::First(unit)
    } else if unit < 8 {
        Side::Second(unit - first)
    } else {
        // Past the eighth no string has a unit: nested pairs are not asked.
        Side::Neither
    }
}

// Each method has its three arms: one closure can't serve two types of string, and none may be handed out as `dyn`.
impl<A: DriveString, B: DriveString> DriveString for Pair<A, B> {
    ghost meaning = { λ p. joined (A.DriveString.meaning p.first) (B.DriveString.meaning p.second) };

    ghost rest = { λ p. both (left_over (A.DriveString.meaning p.first) (B.DriveString.meaning p.second)) (A.DriveString.rest p.first) (B.DriveString.rest p.second) };

    ghost sound = { λ p. joined_sound (A.DriveString.meaning p.first) (B.DriveString.meaning p.second) (A.DriveString.sound p.first) (B.DriveString.sound p.second) };

    #[tactic(auto, using(crate::proofs::Pairs::joined_length))]
    fn units(&self) -> u8 {
        (self.first.units() + self.second.units()).min(8)
    }

    fn geometry(&self, unit: u8) -> Geometry {
        match which_side(self, unit) {
            Side::First(u) => self.first.geometry(u),
            Side::Second(u) => self.second.geometry(u),
            Side::Neither => Geometry::none(),
        }
    }

    fn cylinder(&self, unit: u8) -> PhysicalCylinder {
        match which_side(self, unit) {
            Side::First(u) => self.first.cylinder(u),
            Side::Second(u) => self.second.cylinder(u),
            Side::Neither => PhysicalCylinder(0),
        }
    }

    fn line(&self, unit: u8, line: Line) -> bool {
        match which_side(self, unit) {
            Side::First(u) => self.first.line(u, line),
            Side::Second(u) => self.second.line(u, line),
            Side::Neither => false,
        }
    }

    fn mark(&self, place: Place, part: Part) -> bool {
        match which_side(self, place.unit) {
            Side::First(u) => self.first.mark(place.on(u), part),
            Side::Second(u) => self.second.mark(place.on(u), part),
            Side::Neither => false,
        }
    }

    fn byte(&self, place: Place, part: Part, i: u16) -> u8 {
        match which_side(self, place.unit) {
            Side::First(u) => self.first.byte(place.on(u), part, i),
            Side::Second(u) => self.second.byte(place.on(u), part, i),
            Side::Neither => 0,
        }
    }

    fn pulse(&mut self, unit: u8, direction: Direction) {
        match which_side(self, unit) {
            Side::First(u) => self.first.pulse(u, direction),
            Side::Second(u) => self.second.pulse(u, direction),
            Side::Neither => (),
        }
    }

    fn set_line(&mut self, unit: u8, line: Line, value: bool) {
        match which_side(self, unit) {
            Side::First(u) => self.first.set_line(u, line, value),
            Side::Second(u) => self.second.set_line(u, line, value),
            Side::Neither => (),
        }
    }

    fn set_mark(&mut self, place: Place, part: Part, value: bool) {
        match which_side(self, place.unit) {
            Side::First(u) => self.first.set_mark(place.on(u), part, value),
            Side::Second(u) => self.second.set_mark(place.on(u), part, value),
            Side::Neither => (),
        }
    }

    fn set_byte(&mut self, place: Place, part: Part, i: u16, value: u8) {
        match which_side(self, place.unit) {
            Side::First(u) => self.first.set_byte(place.on(u), part, i, value),
            Side::Second(u) => self.second.set_byte(place.on(u), part, i, value),
            Side::Neither => (),
        }
    }
}
