ghost use Rattle.std.specs.Prelude.{◌≡◌, Some, map};
ghost use Rattle.images.specs.Checks.{told};
ghost use Rattle.images.specs.Layers.{unit_verdict, string_verdict, with_unit};
ghost use Rattle.images.specs.Texts.{refusal_text};

use crate::refusal::ImageFault;
use crate::trailer::{Checked, check_image};
use std::error::Error;
use std::fmt;

// A refused image as its unit passes it up: with the position of the byte that it is about.
#[derive(Clone, Copy, Debug, PartialEq, Eq)]
pub struct UnitRefusal {
    pub fault: ImageFault,
    pub position: usize,
}

// A refused image as its string passes it up: with the number of its unit.
#[derive(Clone, Copy, Debug, PartialEq, Eq)]
pub struct StringRefusal {
    pub unit: usize,
    pub refusal: UnitRefusal,
}

impl fmt::Display for StringRefusal {
    ghost output = { λ r. Some (refusal_text r) };

    fn fmt<W: fmt::Write>(&self, f: &mut fmt::Formatter<W>) -> fmt::Result {
        let UnitRefusal { fault, position } = self.refusal;
        let number = fault.number();
        let unit = self.unit;
        write!(f, "refused {number}, unit {unit}, byte {position}")
    }
}

impl Error for StringRefusal {}

// Checks the image of a unit. A refusal goes up by `?` on each layer, a form that is fixed.
pub fn check_unit(bytes: &[u8]) -> Result<Checked, UnitRefusal>
    ensures { told result ≡ unit_verdict bytes.now }
{
    Ok(check_image(bytes).map_err(|fault| UnitRefusal {
        fault,
        position: fault.position(bytes.len()),
    })?)
}

// Checks the image of the unit of that number in its string.
pub fn check_unit_of_string(unit: usize, bytes: &[u8]) -> Result<Checked, StringRefusal>
    ensures { told result ≡ with_unit (unit_verdict bytes.now) unit }
{
    Ok(check_unit(bytes).map_err(|refusal| StringRefusal { unit, refusal })?)
}

// Checks the images of a string's units, in their order; the first that is refused is passed up.
pub fn check_string(images: &[&[u8]]) -> Result<(), StringRefusal>
    ensures { result ≡ string_verdict 0 (map (λ x. x.now) images.now) }
{
    for (unit, image) in images.iter().enumerate() {
        check_unit_of_string(unit, image)?;
    }
    Ok(())
}
