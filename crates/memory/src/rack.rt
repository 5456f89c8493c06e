ghost use Rattle.memory.specs.Racks.{rack_contents};

use crate::bytes::{Contiguous, Memory};
use crate::cells::Cells;

// The memory of any drive of a rack: an image's, or a cartridge's.
#[derive(Drop)]
pub enum RackMemory<M> {
    Image(M),
    Cartridge(Cells),
}

impl<M: Memory> Memory for RackMemory<M> {
    ghost contents = { rack_contents M.Memory.contents };

    fn size(&self) -> usize {
        match self {
            RackMemory::Image(bytes) => bytes.size(),
            RackMemory::Cartridge(cells) => cells.size(),
        }
    }

    fn get(&self, i: usize) -> u8 {
        match self {
            RackMemory::Image(bytes) => bytes.get(i),
            RackMemory::Cartridge(cells) => cells.get(i),
        }
    }

    fn put(&mut self, i: usize, value: u8) {
        match self {
            RackMemory::Image(bytes) => bytes.put(i, value),
            RackMemory::Cartridge(cells) => cells.put(i, value),
        }
    }
}

impl<M: Contiguous> Contiguous for RackMemory<M> {
    fn bytes(&self) -> &[u8] {
        match self {
            RackMemory::Image(image) => image.bytes(),
            RackMemory::Cartridge(cells) => cells.bytes(),
        }
    }
}
