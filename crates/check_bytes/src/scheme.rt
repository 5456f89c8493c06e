ghost use Rattle.std.specs.Prelude.{◌≡◌, ◌-◌, ◌*◌, ◌/◌, ◌^◌, ◌≤◌, IfOk};
ghost use Rattle.check_bytes.specs.Checks.{check_bytes};
ghost use Rattle.check_bytes.specs.Schemes.{divider, check_by};

use crate::rule::{CheckRule, Start};
use std::alloc::{AllocError, Global};

// All that the check of some bytes depends on besides them: a rule, and what its register starts with.
#[derive(Clone, Copy)]
pub struct CheckScheme<R> {
    pub rule: R,
    pub start: Start,
}

impl<R: CheckRule> CheckScheme<R> {
    // The register before the first byte.
    pub fn start_register(&self) -> u32
        ensures { result ≡ (divider R.CheckRule self.now).start }
    {
        match self.start {
            Start::Zeros => 0,
            Start::Ones => all_ones(self.rule.width()),
        }
    }

    // The check of the bytes, byte after byte.
    pub fn check_of(&self, bytes: &[u8]) -> u32
        ensures { result ≡ check_by (divider R.CheckRule self.now) bytes.now }
    {
        let mut register = self.start_register();
        for byte in bytes {
            register = self.rule.feed(register, *byte);
        }
        register
    }

    // The check bytes of the bytes, high byte first.
    #[tactic(auto, using(crate::proofs::Wide::shown_bytes))]
    pub fn check_bytes_of(&self, heap: Global, bytes: &[u8]) -> Result<Vec<u8>, AllocError>
        ensures { IfOk result (λ v. v.items ≡ check_bytes (R.degree self.now.rule / 8) (check_by (divider R.CheckRule self.now) bytes.now)) }
    {
        let bytes = self.check_of(bytes).to_be_bytes();
        Vec::from_slice(heap, &bytes[4 - self.rule.width() as usize..])
    }
}

// So many bytes of ones.
fn all_ones(width: u8) -> u32
    requires { width ≤ 4 }
    ensures { result ≡ 2 ^ (8 * width) - 1 }
{
    ((1u64 << (8 * width)) - 1) as u32
}

#[cfg(test)]
mod tests {
    use super::*;
    use crate::kind::CheckKind;
    use std::test::Fail;

    #[test]
    fn check_bytes_are_made(rt: HostRuntime) -> Result<(), Fail> {
        let scheme = CheckScheme {
            rule: CheckKind::Crc,
            start: Start::Zeros,
        };
        let bytes = scheme.check_bytes_of(rt.alloc(), b"123456789")?;
        assert_eq!(rt; bytes.as_slice(), [0x31, 0xc3].as_slice());
        Ok(())
    }
}
