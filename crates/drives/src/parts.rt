ghost use Rattle.std.specs.Prelude.{◌≡◌};

use crate::numbers::{PhysicalHead, Slot};

// The two parts of a slot: each has an address mark and bytes of its own.
#[derive(Clone, Copy, PartialEq, Eq)]
pub enum Part {
    Id,
    Data,
}

// The lines of a unit.
#[derive(Clone, Copy, PartialEq, Eq)]
pub enum Line {
    Ready,
    Protect,
    Fault,
}

// Where a step pulse sends the heads: inward is towards higher cylinders.
#[derive(Clone, Copy, PartialEq, Eq)]
pub enum Direction {
    Inward,
    Outward,
}

// A slot on the cylinder where its unit's heads stand.
#[derive(Clone, Copy)]
pub struct Place {
    pub unit: u8,
    pub head: PhysicalHead,
    pub slot: Slot,
}

impl Place {
    // The same place on another unit.
    pub fn on(self, unit: u8) -> Place
        ensures { result ≡ record { unit = unit; head = self.head; slot = self.slot } }
    {
        Place { unit, ..self }
    }
}

// A track of the cylinder where its unit's heads stand.
#[derive(Clone, Copy)]
pub struct Track {
    pub unit: u8,
    pub head: PhysicalHead,
}

impl Track {
    // One of its slots.
    pub fn at(self, slot: Slot) -> Place
        ensures { result ≡ record { unit = self.unit; head = self.head; slot = slot } }
    {
        Place {
            unit: self.unit,
            head: self.head,
            slot,
        }
    }
}
