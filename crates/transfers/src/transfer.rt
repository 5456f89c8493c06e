ghost use Rattle.std.specs.Prelude.{◌≡◌};
ghost use Rattle.drives.specs.Drives.{drive};
ghost use Rattle.registers.specs.Buffers.{held};
ghost use Rattle.transfers.specs.Steps.{shown, beside};
ghost use Rattle.transfers.specs.Transfers.{sector_wants, first_test, turn_test, stopped, not_found, search_turn, byte_done, byte_read, byte_taken, byte_turn, counted_on, check_turn, waiting_turn, transfer_turn};

use crate::outcome::Outcome;
use crate::path::DataPath;
use crate::ready::line_test;
use drives::numbers::Slot;
use drives::parts::{Line, Part};
use drives::string::DriveString;
use registers::buffer::Buffer;
use registers::end::End;
use registers::kind::Kind;
use registers::numbers::Numbers;
use registers::running::{Stage, Transfer};
use registers::setting::Setting;
use sectors::field::field_check;
use sectors::search::find_sector;
use std::ops::ControlFlow::{Break, Continue};
use tracks::marks::{has_id_mark, has_wrong_id};
use tracks::sector::close_sector;

// The bytes that a sector wants from the moment it is next.
pub fn sector_wants(kind: Kind, setting: Setting) -> u16
    ensures { result ≡ sector_wants kind setting }
{
    if kind.takes_bytes() {
        setting.length
    } else {
        0
    }
}

// The tests of the first turn.
fn first_test<S: DriveString>(string: &S, t: Transfer) -> Result<(), End>
    ensures { result ≡ first_test t (S.DriveString.meaning string.now) }
{
    if string.geometry(t.unit).length < t.setting.length {
        return Err(End::EquipmentCheck);
    }
    if t.kind.writes() && string.line(t.unit, Line::Protect) {
        return Err(End::NotWritable);
    }
    Ok(())
}

// The first test that fails before a turn.
fn turn_test<S: DriveString>(string: &S, t: Transfer) -> Result<(), End>
    ensures { result ≡ turn_test t (S.DriveString.meaning string.now) }
{
    line_test(string, t.unit)?;
    match t.stage {
        Stage::Search { first: true } => first_test(string, t),
        _ => Ok(()),
    }
}

// An end that a search or a check decides.
fn stop(t: Transfer, end: End) -> Outcome<Transfer>
    ensures { result ≡ stopped end t }
{
    if t.kind.hands_out() {
        Continue(Transfer {
            stage: Stage::Waiting(end),
            ..t
        })
    } else {
        Break((end, t))
    }
}

// The end where the track has no such sector.
fn not_found<S: DriveString>(string: &S, t: Transfer) -> End
    ensures { result ≡ not_found t (drive (S.DriveString.meaning string.now) t.unit) }
{
    if !has_id_mark(string, t.track()) {
        return End::NoIds;
    }
    let wrong_id = has_wrong_id(string, &t.setting.id_scheme(), t.track());
    End::NoData { wrong_id }
}

// One byte more of the sector is done.
fn byte_done(t: Transfer, slot: Slot, done: u16) -> Outcome<Transfer>
    ensures { result ≡ byte_done slot done t }
{
    let done = done.saturating_add(1);
    let stage = if done < t.setting.length {
        Stage::Bytes { slot, done }
    } else {
        Stage::CheckBytes { slot }
    };
    Continue(Transfer { stage, ..t })
}

// After a sector's check, with SCNT fallen.
fn count_on(t: Transfer, numbers: Numbers) -> Outcome<Transfer>
    ensures { result ≡ counted_on numbers t }
{
    if numbers.is_last(t.setting) && numbers.count != 0 {
        return stop(Transfer { numbers, ..t }, End::EndOfCylinder);
    }
    let numbers = numbers.advanced(t.setting);
    if numbers.count == 0 {
        return stop(Transfer { numbers, ..t }, End::Normal);
    }
    Continue(Transfer {
        numbers,
        stage: Stage::Search { first: false },
        wanted: sector_wants(t.kind, t.setting),
        cut: false,
        ..t
    })
}

impl<S: DriveString> DataPath<S> {
    // Looks for the sector that is next, and opens it if the transfer writes.
    fn search_turn(&mut self, t: Transfer) -> Outcome<Transfer>
        ensures { (result, shown S.DriveString self.new) ≡ search_turn t (shown S.DriveString self.old) }
    {
        let scheme = t.setting.id_scheme();
        let Some(slot) = find_sector(&self.string, &scheme, t.track(), t.numbers.address) else {
            return stop(t, not_found(&self.string, t));
        };
        let place = t.track().at(slot);
        if t.kind.writes() {
            self.string.set_mark(place, Part::Data, false);
        } else if !self.string.mark(place, Part::Data) {
            return stop(t, End::MissingMark);
        }
        let stage = Stage::Bytes { slot, done: 0 };
        Continue(Transfer { stage, ..t })
    }

    // The next data byte into the buffer; after terminal count it is hidden.
    fn read_byte(&mut self, t: Transfer, slot: Slot, done: u16) -> Outcome<Transfer>
        ensures { (result, shown S.DriveString self.new) ≡ byte_read slot done t (shown S.DriveString self.old) }
    {
        if !t.cut {
            if self.buffer.count() >= 8 {
                return Break((End::Overrun, t));
            }
            let byte = self.string.byte(t.track().at(slot), Part::Data, done);
            self.buffer = self.buffer.with(byte);
        }
        byte_done(t, slot, done)
    }

    // The oldest byte of the buffer into the sector; after terminal count 00 where there is none.
    fn take_byte(&mut self, t: Transfer, slot: Slot, done: u16) -> Outcome<Transfer>
        ensures { (result, shown S.DriveString self.new) ≡ byte_taken slot done t (shown S.DriveString self.old).buffer (shown S.DriveString self.old) }
    {
        let byte = if self.buffer.count() > 0 {
            let byte = self.buffer.get(0);
            self.buffer = self.buffer.rest();
            byte
        } else if t.cut {
            0
        } else {
            return Break((End::Overrun, t));
        };
        self.string
            .set_byte(t.track().at(slot), Part::Data, done, byte);
        byte_done(t, slot, done)
    }

    // Moves a data byte; Check moves none.
    fn byte_turn(&mut self, t: Transfer, slot: Slot, done: u16) -> Outcome<Transfer>
        ensures { (result, shown S.DriveString self.new) ≡ byte_turn t.kind slot done t (shown S.DriveString self.old) }
    {
        match t.kind {
            Kind::Read => self.read_byte(t, slot, done),
            Kind::Check => byte_done(t, slot, done),
            Kind::Write => self.take_byte(t, slot, done),
        }
    }

    // Writes the check and closes the sector, or tests the check.
    fn check_turn(&mut self, t: Transfer, slot: Slot) -> Outcome<Transfer>
        ensures { (result, shown S.DriveString self.new) ≡ check_turn slot t (shown S.DriveString self.old) }
    {
        let scheme = t.setting.data_scheme();
        let place = t.track().at(slot);
        if t.kind.writes() {
            close_sector(&mut self.string, &scheme, place, t.setting.length);
        } else if !field_check(&self.string, &scheme, place, t.setting.length).is_right() {
            return stop(t, End::DataError);
        }
        count_on(t, t.numbers.counted())
    }

    // The first turn that finds the buffer empty makes a waiting end.
    fn waiting_turn(&self, t: Transfer, end: End) -> Outcome<Transfer>
        ensures { result ≡ waiting_turn end t (shown S.DriveString self.now).buffer }
    {
        if self.buffer.count() == 0 {
            Break((end, t))
        } else {
            Continue(t)
        }
    }

    // One turn of Read Data, Check or Write Data.
    pub fn transfer_turn(&mut self, t: Transfer) -> Outcome<Transfer>
        ensures { (result, shown S.DriveString self.new) ≡ transfer_turn t (shown S.DriveString self.old) }
    {
        if let Err(end) = turn_test(&self.string, t) {
            return Break((end, t));
        }
        match t.stage {
            Stage::Search { first: _ } => self.search_turn(t),
            Stage::Bytes { slot, done } => self.byte_turn(t, slot, done),
            Stage::CheckBytes { slot } => self.check_turn(t, slot),
            Stage::Waiting(end) => self.waiting_turn(t, end),
        }
    }
}

// A turn on a path whose string is lent, with the buffer after it: the path keeps the loan.
fn turn_on_loan<S: DriveString>(
    path: &mut DataPath<&mut S>,
    t: Transfer,
) -> (Outcome<Transfer>, Buffer)
    ensures same_loan { path.new.string.ghost_name ≡ path.old.string.ghost_name }
    ensures state { (result.0, beside S.DriveString path.new.string.now (held result.1)) ≡ transfer_turn t (beside S.DriveString path.old.string.now (held path.old.buffer)) }
    ensures rest { S.DriveString.rest path.new.string.now ≡ S.DriveString.rest path.old.string.now }
{
    let outcome = path.transfer_turn(t);
    (outcome, path.buffer)
}

// The same turn over a string and a buffer that are lent.
pub fn transfer_turn<S: DriveString>(
    string: &mut S,
    buffer: &mut Buffer,
    t: Transfer,
) -> Outcome<Transfer>
    ensures state { (result, beside S.DriveString string.new (held buffer.new)) ≡ transfer_turn t (beside S.DriveString string.old (held buffer.old)) }
    ensures rest { S.DriveString.rest string.new ≡ S.DriveString.rest string.old }
{
    let mut path = DataPath {
        string,
        buffer: *buffer,
    };
    let (outcome, left) = turn_on_loan(&mut path, t);
    *buffer = left;
    outcome
}
