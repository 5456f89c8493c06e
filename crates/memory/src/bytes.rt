ghost use Rattle.std.specs.Prelude.{◌≡◌, ℕ, List, length, slice_index, slice_set};

// The bytes that a unit stands over. A byte past the end shows 0, and a change there does nothing.
pub trait Memory {
    ghost contents: { Self → List ℕ };

    fn size(&self) -> usize
        ensures { result ≡ length (contents self.now) };

    fn get(&self, i: usize) -> u8
        ensures { result ≡ slice_index (contents self.now) i };

    // A write and no slice lent to be changed: of an array's it is not proved what comes back.
    fn put(&mut self, i: usize, value: u8)
        ensures { contents self.new ≡ slice_set (contents self.old) i value };
}

// Memory that lies in one slice. Not every memory does: two chips may stand side by side.
pub trait Contiguous: Memory {
    fn bytes(&self) -> &[u8]
        ensures { result.now ≡ Self.contents self.now };
}
