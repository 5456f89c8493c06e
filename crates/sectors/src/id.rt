ghost use Rattle.std.specs.Prelude.{◌≡◌};
ghost use Rattle.check_bytes.specs.Schemes.{divider};
ghost use Rattle.drives.specs.Drives.{drive};
ghost use Rattle.sectors.specs.Ids.{address_at, id_checks};

use crate::address::{Address, CheckPair};
use check_bytes::rule::CheckRule;
use check_bytes::scheme::CheckScheme;
use drives::numbers::{LogicalCylinder, LogicalHead, LogicalSector};
use drives::parts::{Part, Place};
use drives::string::DriveString;

// The numbers that the ID of a place holds.
pub fn read_address<S: DriveString>(string: &S, place: Place) -> Address
    ensures { result ≡ address_at (drive (S.DriveString.meaning string.now) place.unit) place.head.0 place.slot.0 }
{
    let byte = |i| string.byte(place, Part::Id, i);
    Address {
        cylinder: LogicalCylinder(u16::from_be_bytes([byte(0), byte(1)])),
        head: LogicalHead(byte(2)),
        sector: LogicalSector(byte(3)),
    }
}

// The check of the ID of a place, as it stands and as it should be.
pub fn id_check<S: DriveString, R: CheckRule>(
    string: &S,
    scheme: &CheckScheme<R>,
    place: Place,
) -> CheckPair
    ensures { result ≡ id_checks (divider R.CheckRule scheme.now) (drive (S.DriveString.meaning string.now) place.unit) place.head.0 place.slot.0 }
{
    let byte = |i| string.byte(place, Part::Id, i);
    CheckPair {
        found: u16::from_be_bytes([byte(4), byte(5)]).into(),
        right: scheme.check_of(&[byte(0), byte(1), byte(2), byte(3)]),
    }
}
