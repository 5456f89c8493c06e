ghost use Rattle.std.specs.Prelude.{◌≡◌};
ghost use Rattle.check_bytes.specs.Schemes.{divider};
ghost use Rattle.drives.specs.Drives.{drive};
ghost use Rattle.drives.specs.Whole.{whole, only};
ghost use Rattle.tracks.specs.Marks.{is_wrong_id, has_id_mark, has_wrong_id, track_opened};

use check_bytes::rule::CheckRule;
use check_bytes::scheme::CheckScheme;
use drives::numbers::Slot;
use drives::parts::{Part, Place, Track};
use drives::string::DriveString;
use sectors::id::id_check;

// Whether a track of the standing cylinder has an ID mark at all.
pub fn has_id_mark<S: DriveString>(string: &S, track: Track) -> bool
    ensures { result ≡ has_id_mark (drive (S.DriveString.meaning string.now) track.unit) track.head.0 }
{
    let slots = string.geometry(track.unit).slots;
    (0..slots).any(|slot| string.mark(track.at(Slot(slot)), Part::Id))
}

// Whether a place has an ID mark and a wrong ID check.
fn is_wrong_id<S: DriveString, R: CheckRule>(
    string: &S,
    scheme: &CheckScheme<R>,
    place: Place,
) -> bool
    ensures { result ≡ is_wrong_id (divider R.CheckRule scheme.now) (drive (S.DriveString.meaning string.now) place.unit) place.head.0 place.slot.0 }
{
    string.mark(place, Part::Id) && !id_check(string, scheme, place).is_right()
}

// Whether a track of the standing cylinder has a marked ID with a wrong check.
pub fn has_wrong_id<S: DriveString, R: CheckRule>(
    string: &S,
    scheme: &CheckScheme<R>,
    track: Track,
) -> bool
    ensures { result ≡ has_wrong_id (divider R.CheckRule scheme.now) (drive (S.DriveString.meaning string.now) track.unit) track.head.0 }
{
    let slots = string.geometry(track.unit).slots;
    (0..slots).any(|slot| is_wrong_id(string, scheme, track.at(Slot(slot))))
}

// Lowers both marks of all slots of a track.
#[tactic(auto, using(crate::proofs::Steps::slot_steps))]
pub fn open_track<S: DriveString>(string: &mut S, track: Track)
    ensures { whole S.DriveString string.new ≡ only track.unit (track_opened track.head.0) (whole S.DriveString string.old) }
{
    for slot in 0..string.geometry(track.unit).slots {
        let place = track.at(Slot(slot));
        string.set_mark(place, Part::Id, false);
        string.set_mark(place, Part::Data, false);
    }
}
