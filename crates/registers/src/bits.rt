ghost use Rattle.std.specs.Prelude.{◌≡◌, ◌<◌};
ghost use Rattle.registers.specs.Bits.{bit, weight};

// Whether a bit of a byte is 1; bit 0 is the lowest.
pub fn is_set(byte: u8, k: u8) -> bool
    requires { k < 8 }
    ensures { result ≡ bit k byte }
{
    (byte >> k) % 2 == 1
}

// What a bit adds to a byte.
pub fn weight_if(set: bool, value: u8) -> u8
    ensures { result ≡ weight set value }
{
    if set { value } else { 0 }
}
