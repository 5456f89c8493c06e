ghost use Rattle.std.specs.Prelude.{◌≡◌};
ghost use Rattle.drives.specs.Drives.{shape_of};
ghost use Rattle.units.specs.Rows.{area};

use drives::geometry::Geometry;

// Where a unit's slots lie in its row of bytes, and what they are. Any numbers may stand here: those that are out of
// bounds, or do not fit the row, mean a unit without places.
#[derive(Clone, Copy, Default)]
pub struct Layout {
    pub first: usize,
    pub cylinders: u16,
    pub heads: u8,
    pub slots: u8,
    pub length: u16,
}

// The bytes of all slots.
pub fn area(geometry: Geometry) -> usize
    ensures { result ≡ area (shape_of geometry) }
{
    geometry.cylinders as usize
        * geometry.heads as usize
        * geometry.slots as usize
        * (geometry.length as usize + 11)
}
