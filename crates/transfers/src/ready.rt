ghost use Rattle.std.specs.Prelude.{◌≡◌};
ghost use Rattle.transfers.specs.Tests.{is_present, is_ready, line_test};

use drives::parts::Line;
use drives::string::DriveString;
use registers::end::End;

// Whether the controller reaches a unit; one above 3 counts as missing.
pub fn is_present<S: DriveString>(string: &S, unit: u8) -> bool
    ensures { result ≡ is_present unit (S.DriveString.meaning string.now) }
{
    unit < 4 && unit < string.units()
}

// Whether a unit is ready.
pub fn is_ready<S: DriveString>(string: &S, unit: u8) -> bool
    ensures { result ≡ is_ready unit (S.DriveString.meaning string.now) }
{
    unit < 4 && string.line(unit, Line::Ready)
}

// The tests on a unit's lines before every turn.
pub fn line_test<S: DriveString>(string: &S, unit: u8) -> Result<(), End>
    ensures { result ≡ line_test unit (S.DriveString.meaning string.now) }
{
    if !is_ready(string, unit) {
        return Err(End::NotReady);
    }
    if string.line(unit, Line::Fault) {
        return Err(End::EquipmentCheck);
    }
    Ok(())
}
