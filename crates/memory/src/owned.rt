use crate::bytes::{Contiguous, Memory};
use crate::slices::{byte_at, set_byte_at};

// Memory of its own.
#[derive(Drop)]
pub struct Owned {
    pub bytes: Vec<u8>,
}

impl Memory for Owned {
    ghost contents = { λ m. m.bytes.items };

    fn size(&self) -> usize {
        self.bytes.len()
    }

    fn get(&self, i: usize) -> u8 {
        byte_at(&self.bytes, i)
    }

    fn put(&mut self, i: usize, value: u8) {
        set_byte_at(&mut self.bytes, i, value);
    }
}

impl Contiguous for Owned {
    fn bytes(&self) -> &[u8] {
        &self.bytes
    }
}
