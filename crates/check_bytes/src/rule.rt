ghost use Rattle.std.specs.Prelude.{◌≡◌, ℕ, ◌*◌, ◌≤◌};
ghost use Rattle.check_bytes.specs.Polynomials.{Degree};
ghost use Rattle.check_bytes.specs.Checks.{fed};

// What the check register holds before the first byte.
#[derive(Clone, Copy, Debug, PartialEq, Eq)]
pub enum Start {
    Zeros,
    Ones,
}

// A rule for check bytes. Its meaning is the remainder by its generator; the register has room for 32 bits.
pub trait CheckRule {
    ghost generator: { Self → ℕ };

    ghost degree: { Self → ℕ };

    // How many check bytes the rule makes.
    fn width(&self) -> u8
        ensures { 8 * result ≡ degree self.now };

    // The register after one byte more. Bits of `register` above the check's width do not count.
    fn feed(&self, register: u32, byte: u8) -> u32
        ensures { result ≡ fed (generator self.now) (degree self.now) register byte };

    ghost shaped: { (rule : Self) → Degree (generator rule) (degree rule) };

    ghost narrow: { (rule : Self) → degree rule ≤ 32 };
}

// A rule that is lent is the rule itself.
impl<R: CheckRule> CheckRule for &R {
    ghost generator = { λ rule. R.generator rule.now };

    ghost degree = { λ rule. R.degree rule.now };

    ghost shaped = { λ rule. R.shaped rule.now };

    ghost narrow = { λ rule. R.narrow rule.now };

    fn width(&self) -> u8 {
        (**self).width()
    }

    fn feed(&self, register: u32, byte: u8) -> u32 {
        (**self).feed(register, byte)
    }
}
