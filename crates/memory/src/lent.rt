use crate::bytes::{Contiguous, Memory};
use crate::slices::{byte_at, set_byte_at};

// Memory of the caller.
#[derive(Drop)]
pub struct Lent<'a> {
    pub bytes: &'a mut [u8],
}

impl Memory for Lent<'_> {
    ghost contents = { λ m. m.bytes.now };

    fn size(&self) -> usize {
        self.bytes.len()
    }

    fn get(&self, i: usize) -> u8 {
        byte_at(&self.bytes, i)
    }

    fn put(&mut self, i: usize, value: u8) {
        set_byte_at(self.bytes, i, value);
    }
}

impl Contiguous for Lent<'_> {
    fn bytes(&self) -> &[u8] {
        &self.bytes
    }
}
