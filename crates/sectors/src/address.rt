ghost use Rattle.std.specs.Prelude.{◌≡◌};
ghost use Rattle.sectors.specs.Search.{is_right};

use drives::numbers::{LogicalCylinder, LogicalHead, LogicalSector};

// The logical numbers of a sector, as its ID holds them.
#[derive(Clone, Copy, PartialEq, Eq)]
pub struct Address {
    pub cylinder: LogicalCylinder,
    pub head: LogicalHead,
    pub sector: LogicalSector,
}

// The check that stands in a field, and the one that would be right for its bytes.
#[derive(Clone, Copy)]
pub struct CheckPair {
    pub found: u32,
    pub right: u32,
}

impl CheckPair {
    // Whether the check stands as it should.
    pub fn is_right(self) -> bool
        ensures { result ≡ is_right self }
    {
        self.found == self.right
    }
}
