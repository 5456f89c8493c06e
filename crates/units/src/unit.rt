ghost use Rattle.std.specs.Prelude.{◌≡◌, ℕ, List, length};
ghost use Rattle.drives.specs.Drives.{shape_of, part_size};
ghost use Rattle.drives.specs.Changes.{next_cylinder};
ghost use Rattle.units.specs.Rows.{mark_bit, with_bit, part_start};
ghost use Rattle.units.specs.Units.{shape_in, standing, lines_of, with_state_line, alone, rest_of};
ghost use Rattle.units.specs.Kept.{alone_sound};
ghost use Rattle.units.specs.Found.{Found, FoundByte};

use crate::layout::{Layout, area};
use drives::geometry::Geometry;
use drives::numbers::PhysicalCylinder;
use drives::parts::{Direction, Line, Part, Place};
use drives::string::DriveString;
use memory::bytes::Memory;

// A unit's layout, the cylinder where its heads stand, and its lines.
#[derive(Clone, Copy)]
pub struct State {
    pub layout: Layout,
    pub cylinder: u16,
    pub ready: bool,
    pub protect: bool,
    pub fault: bool,
}

// One unit over a row of bytes.
#[derive(Drop)]
pub struct Unit<M> {
    pub state: State,
    pub memory: M,
}

impl State {
    // Its geometry over a row of so many bytes.
    fn geometry(self, size: usize) -> Geometry
        ensures { shape_of result ≡ shape_in self.layout size }
    {
        let l = self.layout;
        let Ok(geometry) = Geometry::new(l.cylinders, l.heads, l.slots, l.length) else {
            return Geometry::none();
        };
        if l.first > size || area(geometry) > size - l.first {
            return Geometry::none();
        }
        geometry
    }

    fn line(self, line: Line) -> bool
        ensures { result ≡ lines_of self line }
    {
        match line {
            Line::Ready => self.ready,
            Line::Protect => self.protect,
            Line::Fault => self.fault,
        }
    }

    // The same with one line set.
    fn with_line(self, line: Line, value: bool) -> State
        ensures { result ≡ with_state_line line value self }
    {
        match line {
            Line::Ready => State {
                ready: value,
                ..self
            },
            Line::Protect => State {
                protect: value,
                ..self
            },
            Line::Fault => State {
                fault: value,
                ..self
            },
        }
    }
}

// The byte of marks: whether it shows the mark of a part.
fn shows(byte: u8, part: Part) -> bool
    ensures { result ≡ mark_bit part byte }
{
    match part {
        Part::Id => byte % 2 == 1,
        Part::Data => byte / 2 % 2 == 1,
    }
}

// The byte of marks with the mark of a part set, its other bits as they are.
fn with_mark(byte: u8, part: Part, value: bool) -> u8
    ensures { result ≡ with_bit part value byte }
{
    match part {
        Part::Id => byte / 2 * 2 + u8::from(value),
        Part::Data => byte / 4 * 4 + 2 * u8::from(value) + byte % 2,
    }
}

// Where a part's bytes begin in its slot.
fn start_of(part: Part) -> usize
    ensures { result ≡ part_start part }
{
    match part {
        Part::Id => 1,
        Part::Data => 7,
    }
}

// How many bytes a part has.
fn size_of(part: Part, g: Geometry) -> u16
    ensures { result ≡ part_size (shape_of g) part }
{
    match part {
        Part::Id => 6,
        Part::Data => g.length + 4,
    }
}

// The next cylinder, if there is one.
fn next_cylinder(direction: Direction, cylinders: u16, stands: u16) -> u16
    ensures { result ≡ next_cylinder direction cylinders stands }
{
    match direction {
        Direction::Inward if (stands as u32) + 1 < cylinders as u32 => stands + 1,
        Direction::Inward => stands,
        Direction::Outward => stands.saturating_sub(1),
    }
}

impl<M: Memory> Unit<M> {
    fn shape(&self) -> Geometry
        ensures { shape_of result ≡ shape_in self.now.state.layout (length (M.Memory.contents self.now.memory)) }
    {
        self.state.geometry(self.memory.size())
    }

    // The cylinder where the heads stand.
    fn stands(&self) -> u16
        ensures { result ≡ standing self.now.state (length (M.Memory.contents self.now.memory)) }
    {
        let last = self.shape().cylinders.saturating_sub(1);
        self.state.cylinder.min(last)
    }

    // The first byte of a slot on the standing cylinder, if there is such a place.
    fn find(&self, place: Place) -> Option<usize>
        ensures { Found self.now.state (M.Memory.contents self.now.memory) place.unit place.head.0 place.slot.0 result }
    {
        let size = self.memory.size();
        let g = self.state.geometry(size);
        let head = place.head.0;
        let slot = place.slot.0;
        if place.unit != 0 || head >= g.heads || slot >= g.slots {
            return None;
        }
        let track = self.stands() as usize * g.heads as usize + head as usize;
        let number = track * g.slots as usize + slot as usize;
        Some(self.state.layout.first + number * (g.length as usize + 11))
    }

    // A byte of a place on the standing cylinder, if it exists.
    fn find_byte(&self, place: Place, part: Part, i: u16) -> Option<usize>
        ensures { FoundByte self.now.state (M.Memory.contents self.now.memory) place.unit part place.head.0 place.slot.0 i result }
    {
        let at = self.find(place)?;
        if i >= size_of(part, self.shape()) {
            return None;
        }
        Some(at + (start_of(part) + i as usize))
    }
}

#[tactic(auto, using(crate::proofs::Places::alone_steps))]
impl<M: Memory> DriveString for Unit<M> {
    ghost meaning = { λ k. alone k.state (M.Memory.contents k.memory) };

    ghost rest = { λ k. rest_of k.state (M.Memory.contents k.memory) };

    ghost sound = { λ k. alone_sound k.state (M.Memory.contents k.memory) };

    fn units(&self) -> u8 {
        1
    }

    fn geometry(&self, unit: u8) -> Geometry {
        if unit == 0 {
            self.shape()
        } else {
            Geometry::none()
        }
    }

    fn cylinder(&self, unit: u8) -> PhysicalCylinder {
        if unit == 0 {
            PhysicalCylinder(self.stands())
        } else {
            PhysicalCylinder(0)
        }
    }

    fn line(&self, unit: u8, line: Line) -> bool {
        unit == 0 && self.state.line(line)
    }

    fn mark(&self, place: Place, part: Part) -> bool {
        self.find(place)
            .is_some_and(|at| shows(self.memory.get(at), part))
    }

    fn byte(&self, place: Place, part: Part, i: u16) -> u8 {
        self.find_byte(place, part, i)
            .map_or(0, |k| self.memory.get(k))
    }

    fn pulse(&mut self, unit: u8, direction: Direction) {
        if unit != 0 {
            return;
        }
        let cylinders = self.shape().cylinders;
        let stands = self.stands();
        self.state.cylinder = next_cylinder(direction, cylinders, stands);
    }

    fn set_line(&mut self, unit: u8, line: Line, value: bool) {
        if unit == 0 {
            self.state = self.state.with_line(line, value);
        }
    }

    fn set_mark(&mut self, place: Place, part: Part, value: bool) {
        if let Some(at) = self.find(place) {
            let byte = self.memory.get(at);
            self.memory.put(at, with_mark(byte, part, value));
        }
    }

    fn set_byte(&mut self, place: Place, part: Part, i: u16, value: u8) {
        if let Some(k) = self.find_byte(place, part, i) {
            self.memory.put(k, value);
        }
    }
}
