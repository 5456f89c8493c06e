ghost use Rattle.std.specs.Prelude.{◌≡◌, ◌*◌, ◌^◌};
ghost use Rattle.check_bytes.specs.Polynomials.{remainder};
ghost use Rattle.check_bytes.specs.Rules.{crc16};
ghost use Rattle.std.proofs.Common.{rules};

use crate::rule::CheckRule;
use crate::table::REMAINDERS;

// The cyclic redundancy check by x^16 + x^12 + x^5 + 1, the polynomial of CCITT.
#[derive(Clone, Copy)]
pub struct Crc16;

// What a byte times x^16 leaves.
fn left_by(byte: u8) -> u16
    ensures { result ≡ remainder crc16 16 8 (byte * 2 ^ 16) }
{
    REMAINDERS[byte as usize]
}

impl CheckRule for Crc16 {
    ghost generator = { λ _. crc16 };

    ghost degree = { λ _. 16 };

    ghost shaped = { Prim.search rules };

    ghost narrow = { Prim.search rules };

    fn width(&self) -> u8 {
        2
    }

    #[tactic(auto, using(crate::proofs::Wide::fed_by_bytes))]
    fn feed(&self, register: u32, byte: u8) -> u32 {
        let [low, high, ..] = register.to_le_bytes();
        left_by(high ^ byte) as u32 ^ (low as u32) << 8
    }
}
