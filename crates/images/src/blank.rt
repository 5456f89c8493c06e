ghost use Rattle.std.specs.Prelude.{◌≡◌, Some};
ghost use Rattle.drives.specs.Drives.{shape_of};
ghost use Rattle.images.specs.declared.blank.BlankFault.TheVariants.{OutOfBounds, NoMemory};
ghost use Rattle.images.specs.Blank.{trailer, BlankAnswer};
ghost use Rattle.images.specs.Texts.{blank_text};

use crate::refusal::TrailerField;
use drives::geometry::Geometry;
use std::alloc::{AllocError, Global};
use std::error::Error;
use std::fmt;
use units::layout::area;

// Why there is no blank image.
#[derive(Clone, Copy, Debug, PartialEq, Eq)]
pub enum BlankFault {
    OutOfBounds(TrailerField),
    NoMemory,
}

impl From<TrailerField> for BlankFault {
    ghost from_gives = { λ field fault. fault ≡ OutOfBounds field };

    fn from(field: TrailerField) -> BlankFault {
        BlankFault::OutOfBounds(field)
    }
}

impl From<AllocError> for BlankFault {
    ghost from_gives = { λ _ fault. fault ≡ NoMemory };

    fn from(_error: AllocError) -> BlankFault {
        BlankFault::NoMemory
    }
}

impl fmt::Display for BlankFault {
    ghost output = { λ fault. Some (blank_text fault) };

    fn fmt<W: fmt::Write>(&self, f: &mut fmt::Formatter<W>) -> fmt::Result {
        f.write_str(match self {
            BlankFault::OutOfBounds(_) => "the geometry is out of bounds",
            BlankFault::NoMemory => "there is no memory for the image",
        })
    }
}

impl Error for BlankFault {}

// A blank image of a geometry: all slots 00, then the trailer, and nothing before the first slot.
pub fn blank_image(
    heap: Global,
    cylinders: u16,
    heads: u8,
    slots: u8,
    length: u16,
) -> Result<Vec<u8>, BlankFault>
    ensures { BlankAnswer cylinders heads slots length result }
{
    let geometry = Geometry::new(cylinders, heads, slots, length).map_err(TrailerField::from)?;
    let mut bytes = vec![in heap; 0u8; area(geometry)]?;
    bytes.extend_from_slice(&trailer_of(geometry))?;
    Ok(bytes)
}

// The sixteen bytes at the end.
fn trailer_of(geometry: Geometry) -> [u8; 16]
    ensures { result ≡ trailer (shape_of geometry) }
{
    let [c1, c0] = geometry.cylinders.to_be_bytes();
    let [l1, l0] = geometry.length.to_be_bytes();
    // the distance of the largest geometry takes four bytes
    let [_, _, _, _, d3, d2, d1, d0] = area(geometry).to_be_bytes();
    [
        c1,
        c0,
        geometry.heads,
        geometry.slots,
        l1,
        l0,
        0,
        0,
        d3,
        d2,
        d1,
        d0,
        b'7',
        b'2',
        b'6',
        b'1',
    ]
}
