ghost use Rattle.std.specs.Prelude.{◌≡◌};
ghost use Rattle.check_bytes.specs.Schemes.{divider};
ghost use Rattle.drives.specs.declared.parts.Part.TheVariants.{Data};
ghost use Rattle.drives.specs.Drives.{drive};
ghost use Rattle.drives.specs.Changes.{with_byte};
ghost use Rattle.drives.specs.Whole.{whole, only};
ghost use Rattle.tracks.specs.Writes.{id_field, with_id, with_pattern, with_check, sector_closed, sector_formatted};

use check_bytes::check::check_byte;
use check_bytes::rule::CheckRule;
use check_bytes::scheme::CheckScheme;
use drives::parts::{Part, Place};
use drives::string::DriveString;
use sectors::field::field_check;

// The bytes of an ID: LCNH, LCNL, LHN, LSN and its check.
fn id_bytes<R: CheckRule>(scheme: &CheckScheme<R>, numbers: [u8; 4]) -> [u8; 6]
    ensures { result ≡ id_field (divider R.CheckRule scheme.now) numbers }
{
    let check = scheme.check_of(&numbers);
    let [high, low, head, sector] = numbers;
    [
        high,
        low,
        head,
        sector,
        check_byte(&scheme.rule, check, 0),
        check_byte(&scheme.rule, check, 1),
    ]
}

// Writes an ID.
#[tactic(auto, using(crate::proofs::Steps::byte_steps), unfolding(crate::specs::Writes::with_id))]
fn write_id<S: DriveString, R: CheckRule>(
    string: &mut S,
    scheme: &CheckScheme<R>,
    place: Place,
    numbers: [u8; 4],
)
    ensures { whole S.DriveString string.new ≡ only place.unit (with_id (divider R.CheckRule scheme.now) place.head.0 place.slot.0 numbers) (whole S.DriveString string.old) }
{
    let bytes = id_bytes(scheme, numbers);
    for (i, byte) in bytes.iter().enumerate() {
        string.set_byte(place, Part::Id, i as u16, *byte);
    }
}

// Writes so many data bytes of one value.
#[tactic(auto, using(crate::proofs::Steps::byte_steps), unfolding(crate::specs::Writes::with_pattern))]
fn write_pattern<S: DriveString>(string: &mut S, place: Place, length: u16, value: u8)
    ensures { whole S.DriveString string.new ≡ only place.unit (with_pattern place.head.0 place.slot.0 length value) (whole S.DriveString string.old) }
{
    for i in 0..length {
        string.set_byte(place, Part::Data, i, value);
    }
}

// Writes a byte of a data field, however large its index is: no field is so long that it could pass sixteen bits.
#[tactic(auto, using(crate::proofs::Steps::past_field))]
fn set_field_byte<S: DriveString>(string: &mut S, place: Place, i: u32, value: u8)
    ensures { whole S.DriveString string.new ≡ only place.unit (with_byte Data place.head.0 place.slot.0 i value) (whole S.DriveString string.old) }
{
    if let Ok(i) = u16::try_from(i) {
        string.set_byte(place, Part::Data, i, value);
    }
}

// Writes the check of so many data bytes, as they stand, after them.
#[tactic(auto, using(crate::proofs::Steps::byte_steps, crate::proofs::Steps::check_all))]
fn write_check<S: DriveString, R: CheckRule>(
    string: &mut S,
    scheme: &CheckScheme<R>,
    place: Place,
    length: u16,
)
    ensures { whole S.DriveString string.new ≡ only place.unit (with_check (divider R.CheckRule scheme.now) place.head.0 place.slot.0 length) (whole S.DriveString string.old) }
{
    let check = field_check(string, scheme, place, length).right;
    for i in 0..scheme.rule.width() {
        let byte = check_byte(&scheme.rule, check, i);
        set_field_byte(string, place, u32::from(length) + u32::from(i), byte);
    }
}

// Closes a sector: writes the check of its data bytes and raises the data mark.
#[tactic(auto, using(crate::proofs::Steps::changed_twice), unfolding(crate::specs::Writes::sector_closed))]
pub fn close_sector<S: DriveString, R: CheckRule>(
    string: &mut S,
    scheme: &CheckScheme<R>,
    place: Place,
    length: u16,
)
    ensures { whole S.DriveString string.new ≡ only place.unit (sector_closed (divider R.CheckRule scheme.now) place.head.0 place.slot.0 length) (whole S.DriveString string.old) }
{
    write_check(string, scheme, place, length);
    string.set_mark(place, Part::Data, true);
}

// Formats a sector: writes its ID, so many data bytes of one value and both checks, and raises both marks.
#[tactic(auto, using(crate::proofs::Steps::changed_twice), unfolding(crate::specs::Writes::sector_formatted))]
pub fn format_sector<S: DriveString, I: CheckRule, D: CheckRule>(
    string: &mut S,
    id_scheme: &CheckScheme<I>,
    data_scheme: &CheckScheme<D>,
    place: Place,
    numbers: [u8; 4],
    length: u16,
    value: u8,
)
    ensures { whole S.DriveString string.new ≡ only place.unit (sector_formatted (divider I.CheckRule id_scheme.now) (divider D.CheckRule data_scheme.now) place.head.0 place.slot.0 numbers length value) (whole S.DriveString string.old) }
{
    write_id(string, id_scheme, place, numbers);
    write_pattern(string, place, length, value);
    string.set_mark(place, Part::Id, true);
    close_sector(string, data_scheme, place, length);
}
