ghost use Rattle.std.specs.Prelude.{◌≡◌, length, slice_index, slice_set};

pub fn count(bytes: &[u8]) -> usize
    ensures { result ≡ length bytes.now }
{
    bytes.len()
}

// A byte, or 0 past the end.
pub fn byte_at(bytes: &[u8], i: usize) -> u8
    ensures { result ≡ slice_index bytes.now i }
{
    bytes.get(i).copied().unwrap_or(0)
}

// Writes a byte, unless it is past the end.
pub fn set_byte_at(bytes: &mut [u8], i: usize, value: u8)
    ensures { bytes.new ≡ slice_set bytes.old i value }
{
    // By index: what `get_mut` promises of a slice says nothing of the other bytes.
    if i < bytes.len() {
        bytes[i] = value;
    }
}
