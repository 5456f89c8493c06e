ghost use Rattle.std.specs.Prelude.{◌≡◌, ◌≤◌, ◌&&◌, ◌==◌, slice_index};
ghost use Rattle.images.specs.Trailer.{verdict, judged};
ghost use Rattle.images.specs.Checks.{told};

use crate::refusal::{ImageFault, TrailerField};
use drives::geometry::Geometry;
use units::layout::area;

// What a trailer says of an image that is accepted: its geometry, and the byte where its first slot begins.
#[derive(Clone, Copy)]
pub struct Checked {
    pub geometry: Geometry,
    pub first: usize,
}

// The trailer's fields, as they stand.
#[derive(Clone, Copy)]
struct Fields {
    cylinders: u16,
    heads: u8,
    slots: u8,
    length: u16,
    zeros: u16,
    distance: usize,
}

// Checks an image: reads its last sixteen bytes and nothing else.
#[tactic(auto, unfolding(crate::specs::Trailer::verdict))]
pub fn check_image(bytes: &[u8]) -> Result<Checked, ImageFault>
    ensures { told result ≡ verdict bytes.now }
{
    let [
        ..,
        c1,
        c0,
        heads,
        slots,
        l1,
        l0,
        z1,
        z0,
        d3,
        d2,
        d1,
        d0,
        m3,
        m2,
        m1,
        m0,
    ] = bytes
    else {
        return Err(ImageFault::TooShort);
    };
    if !is_mark([*m3, *m2, *m1, *m0]) {
        return Err(ImageFault::NotMarked);
    }
    let fields = Fields {
        cylinders: u16::from_be_bytes([*c1, *c0]),
        heads: *heads,
        slots: *slots,
        length: u16::from_be_bytes([*l1, *l0]),
        zeros: u16::from_be_bytes([*z1, *z0]),
        distance: u32::from_be_bytes([*d3, *d2, *d1, *d0]) as usize,
    };
    judge(bytes.len(), fields)
}

// Whether these four bytes are the mark, ASCII 7261.
fn is_mark(bytes: [u8; 4]) -> bool
    ensures { result ≡ (slice_index bytes 0 == 0x37 && (slice_index bytes 1 == 0x32 && (slice_index bytes 2 == 0x36 && slice_index bytes 3 == 0x31))) }
{
    bytes == *b"7261"
}

// What the fields of an image of so many bytes say.
fn judge(size: usize, fields: Fields) -> Result<Checked, ImageFault>
    requires { 16 ≤ size }
    ensures { told result ≡ judged size fields.cylinders fields.heads fields.slots fields.length fields.zeros fields.distance }
{
    let Fields {
        cylinders,
        heads,
        slots,
        length,
        zeros,
        distance,
    } = fields;
    let geometry = Geometry::new(cylinders, heads, slots, length).map_err(TrailerField::from)?;
    if zeros != 0 {
        return Err(ImageFault::OutOfBounds(TrailerField::Zeros));
    }
    let room = size - 16;
    if distance != area(geometry) || distance > room {
        return Err(ImageFault::WrongDistance);
    }
    Ok(Checked {
        geometry,
        first: room - distance,
    })
}
