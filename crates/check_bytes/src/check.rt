ghost use Rattle.std.specs.Prelude.{◌≡◌, ◌/◌, slice_index};
ghost use Rattle.check_bytes.specs.Checks.{check_bytes};

use crate::rule::CheckRule;

// Byte `i` of a check as it stands on the drive, high byte first; 0 past its width.
#[tactic(auto, using(crate::proofs::Wide::shown_bytes))]
pub fn check_byte<R: CheckRule>(rule: &R, check: u32, i: u8) -> u8
    ensures { result ≡ slice_index (check_bytes (R.degree rule.now / 8) check) i }
{
    let bytes = check.to_be_bytes();
    let shown = &bytes[4 - rule.width() as usize..];
    shown.get(i as usize).copied().unwrap_or(0)
}
