ghost use Rattle.std.specs.Prelude.{◌≡◌};
ghost use Rattle.registers.specs.Buffers.{held};
ghost use Rattle.controller.specs.State.{seen};
ghost use Rattle.controller.specs.Ending.{ended, plain_flags, end_flags, seek_ended, transfer_ended, format_ended};

use crate::controller::{Controller, Registers};
use drives::string::DriveString;
use registers::buffer::Buffer;
use registers::end::{End, SeekEnd};
use registers::numbers::Numbers;
use registers::status::Flags;

// The flags of an end that has neither RRQ nor IER.
pub(super) fn plain_flags(normal: bool) -> Flags
    ensures { result ≡ plain_flags normal }
{
    Flags {
        ended_high: normal,
        ended_low: !normal,
        ..Flags::none()
    }
}

// The flags of a transfer's end.
fn end_flags(end: End) -> Flags
    ensures { result ≡ end_flags end }
{
    Flags {
        reset_request: end.requests_reset(),
        id_error: end.shows_id_error(),
        ..plain_flags(end.is_normal())
    }
}

impl<S: DriveString> Controller<S> {
    // Ends the running command: its results replace what the buffer held.
    pub(super) fn finish(&mut self, flags: Flags, results: Buffer)
        ensures { seen S.DriveString self.new ≡ ended flags (held results) (seen S.DriveString self.old) }
    {
        self.path.buffer = results;
        self.registers = Registers {
            running: None,
            flags,
            results: true,
            ..self.registers
        };
    }

    pub(super) fn end_seek(&mut self, end: SeekEnd, unit: u8)
        ensures { seen S.DriveString self.new ≡ seek_ended end unit (seen S.DriveString self.old) }
    {
        let results = Buffer::of(&[end.status_byte(unit)]);
        self.finish(plain_flags(end.is_normal()), results);
    }

    pub(super) fn end_transfer(&mut self, end: End, numbers: Numbers)
        ensures { seen S.DriveString self.new ≡ transfer_ended end numbers (seen S.DriveString self.old) }
    {
        let [cylinder_high, cylinder_low] = numbers.address.cylinder.0.to_be_bytes();
        let results = Buffer::of(&[
            end.error_byte(),
            numbers.head.0,
            cylinder_high,
            cylinder_low,
            numbers.address.head.0,
            numbers.address.sector.0,
            numbers.count,
        ]);
        self.finish(end_flags(end), results);
    }

    pub(super) fn end_format(&mut self, end: End, count: u8)
        ensures { seen S.DriveString self.new ≡ format_ended end count (seen S.DriveString self.old) }
    {
        let results = Buffer::of(&[end.error_byte(), count]);
        self.finish(end_flags(end), results);
    }
}
