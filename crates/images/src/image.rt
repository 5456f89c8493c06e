ghost use Rattle.std.specs.Prelude.{◌≡◌};
ghost use Rattle.images.specs.Checks.{layout_of};
ghost use Rattle.memory.specs.declared.rack.RackMemory.TheVariants.{Image as RackImage, Cartridge as RackCartridge};
ghost use Rattle.images.specs.Fresh.{new, fresh_state, cartridge_state, empty_cells};

use crate::trailer::{Checked, check_image};
use memory::bytes::{Contiguous, Memory};
use memory::cells::Cells;
use memory::lent::Lent;
use memory::owned::Owned;
use memory::rack::RackMemory;
use units::layout::Layout;
use units::unit::{State, Unit};

// A unit over an image in memory of the caller.
pub type Image<'a> = Unit<Lent<'a>>;

// A unit over an image in memory of its own.
pub type OwnedImage = Unit<Owned>;

// A unit that keeps its 2,224 bytes itself: 2 cylinders, 2 heads, 4 slots of 128 data bytes.
pub type Cartridge = Unit<Cells>;

// A new unit with its slots there: it stands at cylinder 0, ready, not protected, without fault.
fn new_state(layout: Layout, ready: bool) -> State
    ensures { result ≡ new layout ready }
{
    State {
        layout,
        cylinder: 0,
        ready,
        protect: false,
        fault: false,
    }
}

// Where the slots of a checked image lie.
impl From<Checked> for Layout {
    ghost from_gives = { λ checked layout. layout ≡ layout_of checked };

    fn from(checked: Checked) -> Layout {
        Layout {
            first: checked.first,
            cylinders: checked.geometry.cylinders,
            heads: checked.geometry.heads,
            slots: checked.geometry.slots,
            length: checked.geometry.length,
        }
    }
}

// The state of a new unit over an image; over a refused one it has no places and is not ready.
pub fn image_state(bytes: &[u8]) -> State
    ensures { result ≡ fresh_state bytes.now }
{
    match check_image(bytes) {
        Ok(checked) => new_state(Layout::from(checked), true),
        Err(_) => new_state(Layout::default(), false),
    }
}

// A new unit over an image, whatever memory holds it in one slice.
fn image_over<M: Contiguous>(memory: M) -> Unit<M>
    ensures state { result.state ≡ fresh_state (M.contents memory) }
    ensures memory { result.memory ≡ memory }
{
    Unit {
        state: image_state(memory.bytes()),
        memory,
    }
}

// A new unit over a cartridge's bytes.
fn cartridge_over<M: Memory>(memory: M) -> Unit<M>
    ensures state { result.state ≡ cartridge_state }
    ensures memory { result.memory ≡ memory }
{
    let layout = Layout {
        first: 0,
        cylinders: 2,
        heads: 2,
        slots: 4,
        length: 128,
    };
    Unit {
        state: new_state(layout, true),
        memory,
    }
}

// A new unit over an image in memory of the caller.
pub fn new_image(bytes: &mut [u8]) -> Image<'_>
    ensures state { result.state ≡ fresh_state bytes.old }
    ensures memory { result.memory.bytes.now ≡ bytes.old }
{
    image_over(Lent { bytes })
}

// Ends an image: the caller's memory comes back as it stands.
pub fn end_image(image: Image<'_>) -> &mut [u8]
    ensures { result.now ≡ image.entry.memory.bytes.now }
{
    let Unit { state: _, memory } = image;
    let Lent { bytes } = memory;
    bytes
}

// A new unit over an image in memory of its own.
pub fn new_owned_image(bytes: Vec<u8>) -> OwnedImage
    ensures state { result.state ≡ fresh_state bytes.items }
    ensures memory { result.memory.bytes ≡ bytes }
{
    image_over(Owned { bytes })
}

// A new cartridge, all its bytes 00.
pub fn new_cartridge() -> Cartridge
    ensures state { result.state ≡ cartridge_state }
    ensures memory { result.memory.bytes ≡ empty_cells }
{
    cartridge_over(Cells::new())
}

// A drive of a rack, in memory of its own: an image or a cartridge.
pub type RackUnit = Unit<RackMemory<Owned>>;

// A new unit of a rack over an image.
pub fn new_rack_image(bytes: Vec<u8>) -> RackUnit
    ensures state { result.state ≡ fresh_state bytes.items }
    ensures memory { result.memory ≡ RackImage (record { bytes = bytes }) }
{
    image_over(RackMemory::Image(Owned { bytes }))
}

// A new cartridge in a rack.
pub fn new_rack_cartridge() -> RackUnit
    ensures state { result.state ≡ cartridge_state }
    ensures memory { result.memory ≡ RackCartridge (record { bytes = empty_cells }) }
{
    cartridge_over(RackMemory::Cartridge(Cells::new()))
}

#[cfg(test)]
mod tests {
    use super::*;
    use drives::collar::Collar;
    use drives::parts::Line;
    use drives::string::DriveString;

    // A collar on a loan holds the unit for as long as it is on, and no longer.
    #[test]
    fn a_lent_unit_comes_back(rt: HostRuntime) {
        let mut cartridge = new_cartridge();
        let mut collar = Collar {
            string: &mut cartridge,
        };
        collar.set_line(0, Line::Protect, false);
        collar.set_line(0, Line::Fault, true);
        assert!(rt; collar.line(0, Line::Protect), "held");
        assert!(rt; cartridge.line(0, Line::Fault), "set through the loan");
        assert!(rt; !cartridge.line(0, Line::Protect), "held no longer");
    }
}
