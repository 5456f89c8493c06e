ghost use Rattle.std.specs.Prelude.{◌≡◌, true};
ghost use Rattle.drives.specs.Bounds.{bounded};

// Cylinders, heads, slots a track and data bytes a slot: within the bounds of a drive, or all 0.
#[derive(Clone, Copy)]
pub struct Geometry {
    pub cylinders: u16,
    pub heads: u8,
    pub slots: u8,
    pub length: u16,
    ghost bounds: { bounded cylinders heads slots length ≡ true },
}

// The numbers of a geometry, each of which has bounds.
#[derive(Clone, Copy, Debug, PartialEq, Eq)]
pub enum Dimension {
    Cylinders,
    Heads,
    Slots,
    Length,
}

impl Geometry {
    ghost use Rattle.drives.specs.Drives.{shape_of, no_shape};
    ghost use Rattle.drives.specs.Shapes.{shape_answer, bounded_shape};

    // A geometry within the bounds, or the first number that is not.
    pub fn new(cylinders: u16, heads: u8, slots: u8, length: u16) -> Result<Geometry, Dimension>
        ensures { shape_answer result ≡ bounded_shape cylinders heads slots length }
    {
        if !(1..=2048).contains(&cylinders) {
            return Err(Dimension::Cylinders);
        }
        if !(1..=8).contains(&heads) {
            return Err(Dimension::Heads);
        }
        if !(1..=32).contains(&slots) {
            return Err(Dimension::Slots);
        }
        if !(128..=4095).contains(&length) {
            return Err(Dimension::Length);
        }
        Ok(Geometry {
            cylinders,
            heads,
            slots,
            length,
        })
    }

    // The geometry of a unit that has no places.
    pub fn none() -> Geometry
        ensures { shape_of result ≡ no_shape }
    {
        Geometry {
            cylinders: 0,
            heads: 0,
            slots: 0,
            length: 0,
        }
    }
}
