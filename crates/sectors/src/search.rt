ghost use Rattle.std.specs.Prelude.{◌≡◌};
ghost use Rattle.check_bytes.specs.Schemes.{divider};
ghost use Rattle.drives.specs.Drives.{drive};
ghost use Rattle.sectors.specs.Search.{wanted_at, first_slot};

use crate::address::Address;
use crate::id::{id_check, read_address};
use check_bytes::rule::CheckRule;
use check_bytes::scheme::CheckScheme;
use drives::numbers::Slot;
use drives::parts::{Part, Place, Track};
use drives::string::DriveString;

// Whether a place has a marked ID with a right check and the wanted numbers.
pub fn is_wanted<S: DriveString, R: CheckRule>(
    string: &S,
    scheme: &CheckScheme<R>,
    place: Place,
    wanted: Address,
) -> bool
    ensures { result ≡ wanted_at (divider R.CheckRule scheme.now) (drive (S.DriveString.meaning string.now) place.unit) wanted place.head.0 place.slot.0 }
{
    string.mark(place, Part::Id)
        && id_check(string, scheme, place).is_right()
        && read_address(string, place) == wanted
}

// The first slot of a track, from slot 0 on, that has the wanted sector.
#[tactic(auto, using(crate::proofs::First::first_steps))]
pub fn find_sector<S: DriveString, R: CheckRule>(
    string: &S,
    scheme: &CheckScheme<R>,
    track: Track,
    wanted: Address,
) -> Option<Slot>
    ensures { result ≡ first_slot (wanted_at (divider R.CheckRule scheme.now) (drive (S.DriveString.meaning string.now) track.unit) wanted track.head.0) (drive (S.DriveString.meaning string.now) track.unit).shape.slots 0 }
{
    let count = string.geometry(track.unit).slots;
    let mut slot = 0;
    // The search stays a loop that is left by `break`, with the slot found or with none.
    loop {
        if slot >= count {
            break None;
        }
        if is_wanted(string, scheme, track.at(Slot(slot)), wanted) {
            break Some(Slot(slot));
        }
        slot += 1;
    }
}
