ghost use Rattle.std.specs.Prelude.{◌≡◌, replicate};

use crate::bytes::{Contiguous, Memory};
use crate::slices::{byte_at, count, set_byte_at};

// The bytes of a cartridge: 2 cylinders, 2 heads, 4 slots of 139 bytes.
#[derive(Drop)]
pub struct Cells {
    pub bytes: [u8; 2224],
}

impl Cells {
    pub fn new() -> Cells
        ensures { result.bytes ≡ replicate 2224 0 }
    {
        Cells { bytes: [0u8; 2224] }
    }
}

impl Memory for Cells {
    ghost contents = { λ m. m.bytes };

    fn size(&self) -> usize {
        count(&self.bytes)
    }

    fn get(&self, i: usize) -> u8 {
        byte_at(&self.bytes, i)
    }

    fn put(&mut self, i: usize, value: u8) {
        set_byte_at(&mut self.bytes, i, value);
    }
}

impl Contiguous for Cells {
    fn bytes(&self) -> &[u8] {
        &self.bytes
    }
}
