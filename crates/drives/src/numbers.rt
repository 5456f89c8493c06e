// Physical numbers say where heads stand; logical ones say what an ID holds. They are types of their own, so that neither
// is ever taken for the other.
#[derive(Clone, Copy, PartialEq, Eq)]
pub struct PhysicalCylinder(pub u16);

#[derive(Clone, Copy, PartialEq, Eq)]
pub struct PhysicalHead(pub u8);

// A sector's position on its track, from 0.
#[derive(Clone, Copy, PartialEq, Eq)]
pub struct Slot(pub u8);

#[derive(Clone, Copy, PartialEq, Eq)]
pub struct LogicalCylinder(pub u16);

#[derive(Clone, Copy, PartialEq, Eq)]
pub struct LogicalHead(pub u8);

#[derive(Clone, Copy, PartialEq, Eq)]
pub struct LogicalSector(pub u8);
