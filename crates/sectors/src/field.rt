ghost use Rattle.std.specs.Prelude.{◌≡◌, ◌≤◌};
ghost use Rattle.check_bytes.specs.Checks.{message};
ghost use Rattle.check_bytes.specs.Schemes.{divider, check_by};
ghost use Rattle.drives.specs.declared.parts.Part.TheVariants.{Data};
ghost use Rattle.drives.specs.Drives.{drive, byte_here};
ghost use Rattle.sectors.specs.Fields.{field_bytes, field_checks};

use crate::address::CheckPair;
use check_bytes::rule::CheckRule;
use check_bytes::scheme::CheckScheme;
use drives::parts::{Part, Place};
use drives::string::DriveString;

// The right check of so many data bytes of a place.
fn right_check<S: DriveString, R: CheckRule>(
    string: &S,
    scheme: &CheckScheme<R>,
    place: Place,
    length: u16,
) -> u32
    ensures { result ≡ check_by (divider R.CheckRule scheme.now) (field_bytes (drive (S.DriveString.meaning string.now) place.unit) place.head.0 place.slot.0 0 length) }
{
    let mut register = scheme.start_register();
    for i in 0..length {
        register = scheme
            .rule
            .feed(register, string.byte(place, Part::Data, i));
    }
    register
}

// Byte i of the data field of a place, however large i is: no field is so long that it could pass sixteen bits.
fn field_byte<S: DriveString>(string: &S, place: Place, i: u32) -> u8
    ensures { result ≡ byte_here (drive (S.DriveString.meaning string.now) place.unit) Data place.head.0 place.slot.0 i }
{
    match u16::try_from(i) {
        Ok(i) => string.byte(place, Part::Data, i),
        Err(_) => 0,
    }
}

// The check of so many bytes that stands from byte `from` on.
fn found_check<S: DriveString>(string: &S, place: Place, from: u16, width: u8) -> u32
    requires { width ≤ 4 }
    ensures { result ≡ message (field_bytes (drive (S.DriveString.meaning string.now) place.unit) place.head.0 place.slot.0 from width) }
{
    let mut found = 0u32;
    for i in 0..width {
        let byte = field_byte(string, place, u32::from(from) + u32::from(i));
        found = found * 256 + u32::from(byte);
    }
    found
}

// The check of the data field of a place under a data length, as it stands and as it should be.
pub fn field_check<S: DriveString, R: CheckRule>(
    string: &S,
    scheme: &CheckScheme<R>,
    place: Place,
    length: u16,
) -> CheckPair
    ensures { result ≡ field_checks (divider R.CheckRule scheme.now) (drive (S.DriveString.meaning string.now) place.unit) place.head.0 place.slot.0 length }
{
    CheckPair {
        found: found_check(string, place, length, scheme.rule.width()),
        right: right_check(string, scheme, place, length),
    }
}
