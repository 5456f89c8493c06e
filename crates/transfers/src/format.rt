ghost use Rattle.std.specs.Prelude.{◌≡◌};
ghost use Rattle.registers.specs.Buffers.{held};
ghost use Rattle.transfers.specs.Steps.{shown, beside};
ghost use Rattle.transfers.specs.Formats.{first_format_test, format_test, track_turn, slot_turn, format_turn};

use crate::outcome::Outcome;
use crate::path::DataPath;
use crate::ready::line_test;
use drives::numbers::Slot;
use drives::parts::Line;
use drives::string::DriveString;
use registers::buffer::Buffer;
use registers::end::End;
use registers::running::{Format, FormatStage};
use std::ops::ControlFlow::{Break, Continue};
use tracks::marks::open_track;
use tracks::sector::format_sector;

// The tests of the first turn.
fn first_format_test<S: DriveString>(string: &S, f: Format) -> Result<(), End>
    ensures { result ≡ first_format_test f (S.DriveString.meaning string.now) }
{
    let geometry = string.geometry(f.unit);
    if geometry.length < f.setting.length || f.head.0 >= geometry.heads {
        return Err(End::EquipmentCheck);
    }
    if string.line(f.unit, Line::Protect) {
        return Err(End::NotWritable);
    }
    Ok(())
}

// The first test that fails before a turn.
fn format_test<S: DriveString>(string: &S, f: Format) -> Result<(), End>
    ensures { result ≡ format_test f (S.DriveString.meaning string.now) }
{
    line_test(string, f.unit)?;
    match f.stage {
        FormatStage::Opening => first_format_test(string, f),
        FormatStage::Writing(_) => Ok(()),
    }
}

impl<S: DriveString> DataPath<S> {
    // Opens all slots of the track.
    fn track_turn(&mut self, f: Format) -> Outcome<Format>
        ensures { (result, shown S.DriveString self.new) ≡ track_turn f (shown S.DriveString self.old) }
    {
        open_track(&mut self.string, f.track());
        Continue(Format {
            stage: FormatStage::Writing(Slot(0)),
            ..f
        })
    }

    // Takes four bytes and closes the slot with them as its numbers.
    fn slot_turn(&mut self, f: Format, slot: Slot) -> Outcome<Format>
        ensures { (result, shown S.DriveString self.new) ≡ slot_turn slot f (shown S.DriveString self.old) }
    {
        if slot.0 >= self.string.geometry(f.unit).slots {
            return Break((End::EndOfCylinder, f));
        }
        if self.buffer.count() < 4 {
            return Break((End::Overrun, f));
        }
        let all = self.buffer;
        let numbers = [all.get(0), all.get(1), all.get(2), all.get(3)];
        self.buffer = all.rest().rest().rest().rest();
        format_sector(
            &mut self.string,
            &f.setting.id_scheme(),
            &f.setting.data_scheme(),
            f.track().at(slot),
            numbers,
            f.setting.length,
            f.pattern,
        );
        let count = f.count.saturating_sub(1);
        if count == 0 {
            return Break((End::Normal, Format { count, ..f }));
        }
        let stage = FormatStage::Writing(Slot(slot.0 + 1));
        Continue(Format { count, stage, ..f })
    }

    // One turn of Format.
    pub fn format_turn(&mut self, f: Format) -> Outcome<Format>
        ensures { (result, shown S.DriveString self.new) ≡ format_turn f (shown S.DriveString self.old) }
    {
        if let Err(end) = format_test(&self.string, f) {
            return Break((end, f));
        }
        match f.stage {
            FormatStage::Opening => self.track_turn(f),
            FormatStage::Writing(slot) => self.slot_turn(f, slot),
        }
    }
}

// A turn on a path whose string is lent, with the buffer after it: the path keeps the loan.
fn turn_on_loan<S: DriveString>(path: &mut DataPath<&mut S>, f: Format) -> (Outcome<Format>, Buffer)
    ensures same_loan { path.new.string.ghost_name ≡ path.old.string.ghost_name }
    ensures state { (result.0, beside S.DriveString path.new.string.now (held result.1)) ≡ format_turn f (beside S.DriveString path.old.string.now (held path.old.buffer)) }
    ensures rest { S.DriveString.rest path.new.string.now ≡ S.DriveString.rest path.old.string.now }
{
    let outcome = path.format_turn(f);
    (outcome, path.buffer)
}

// The same turn over a string and a buffer that are lent.
pub fn format_turn<S: DriveString>(
    string: &mut S,
    buffer: &mut Buffer,
    f: Format,
) -> Outcome<Format>
    ensures state { (result, beside S.DriveString string.new (held buffer.new)) ≡ format_turn f (beside S.DriveString string.old (held buffer.old)) }
    ensures rest { S.DriveString.rest string.new ≡ S.DriveString.rest string.old }
{
    let mut path = DataPath {
        string,
        buffer: *buffer,
    };
    let (outcome, left) = turn_on_loan(&mut path, f);
    *buffer = left;
    outcome
}
