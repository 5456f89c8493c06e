// A memory whose bytes do not lie in one slice: the trait asks for none.
ghost use Rattle.std.specs.Prelude.{[], ◌∷◌};

use crate::bytes::Memory;

#[derive(Drop)]
struct TwoBytes {
    first: u8,
    second: u8,
}

impl Memory for TwoBytes {
    ghost contents = { λ m. m.first ∷ m.second ∷ [] };

    fn size(&self) -> usize {
        2
    }

    fn get(&self, i: usize) -> u8 {
        match i {
            0 => self.first,
            1 => self.second,
            _ => 0,
        }
    }

    fn put(&mut self, i: usize, value: u8) {
        match i {
            0 => self.first = value,
            1 => self.second = value,
            _ => (),
        }
    }
}

#[test]
fn bytes_may_lie_apart(rt: HostRuntime) {
    let mut memory = TwoBytes {
        first: 3,
        second: 5,
    };
    memory.put(1, 7);
    memory.put(2, 9);
    assert!(rt; memory.size() == 2, "size");
    assert!(rt; memory.get(0) == 3 && memory.get(1) == 7, "bytes");
    assert!(rt; memory.get(2) == 0, "past the end");
}
