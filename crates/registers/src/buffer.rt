ghost use Rattle.std.specs.Prelude.{◌≡◌, ◌≤◌, take};
ghost use Rattle.registers.specs.Places.{places};

// At most eight bytes, the oldest first. The places behind them are 0, so that two buffers with the same bytes are the
// same.
#[derive(Clone, Copy)]
pub struct Buffer {
    bytes: [u8; 8],
    count: u8,
    ghost few: { count ≤ 8 },
    ghost padded: { bytes ≡ places (take count bytes) },
}

impl Buffer {
    ghost use Rattle.std.specs.Prelude.{◌≡◌, ◌≤◌, [], length, take, drop, slice_index};
    ghost use Rattle.registers.specs.Buffers.{held, added};

    pub fn empty() -> Buffer
        ensures { held result ≡ [] }
    {
        Buffer {
            bytes: [0; 8],
            count: 0,
        }
    }

    // The first eight of these bytes.
    pub fn of(bytes: &[u8]) -> Buffer
        ensures { held result ≡ take 8 bytes.now }
    {
        let mut buffer = Buffer::empty();
        for byte in bytes {
            buffer = buffer.with(*byte);
        }
        buffer
    }

    pub fn count(self) -> u8
        ensures value { result ≡ length (held self) }
        ensures few { length (held self) ≤ 8 }
    {
        self.count
    }

    // Byte i, counted from the oldest; 0 where there is none.
    pub fn get(self, i: u8) -> u8
        ensures { result ≡ slice_index (held self) i }
    {
        self.bytes.get(i as usize).copied().unwrap_or(0)
    }

    // One byte more; a full buffer stays as it is.
    pub fn with(self, byte: u8) -> Buffer
        ensures { held result ≡ added (held self) byte }
    {
        if self.count >= 8 {
            return self;
        }
        let mut bytes = self.bytes;
        bytes[self.count as usize] = byte;
        Buffer {
            bytes,
            count: self.count + 1,
        }
    }

    // Without the oldest byte.
    pub fn rest(self) -> Buffer
        ensures { held result ≡ drop 1 (held self) }
    {
        let [_, b, c, d, e, f, g, h] = self.bytes;
        Buffer {
            bytes: [b, c, d, e, f, g, h, 0],
            count: self.count.saturating_sub(1),
        }
    }
}
