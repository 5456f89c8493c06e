ghost use Rattle.check_bytes.specs.Rules.{lrc16};
ghost use Rattle.std.proofs.Common.{rules};

use crate::rule::CheckRule;

// The longitudinal redundancy check by x^16 + 1: the parity of each bit over the two-byte words, counted from the end.
#[derive(Clone, Copy)]
pub struct Lrc16;

impl CheckRule for Lrc16 {
    ghost generator = { λ _. lrc16 };

    ghost degree = { λ _. 16 };

    ghost shaped = { Prim.search rules };

    ghost narrow = { Prim.search rules };

    fn width(&self) -> u8 {
        2
    }

    // What passes x^16 comes back at the low end.
    #[tactic(auto, using(crate::proofs::Wide::folded_by_bytes))]
    fn feed(&self, register: u32, byte: u8) -> u32 {
        let [low, high, ..] = register.to_le_bytes();
        (high ^ byte) as u32 ^ (low as u32) << 8
    }
}
