ghost use Rattle.std.specs.Prelude.{◌≡◌};
ghost use Rattle.drives.specs.Drives.{drive};
ghost use Rattle.registers.specs.Buffers.{held};
ghost use Rattle.controller.specs.State.{seen};
ghost use Rattle.controller.specs.Starting.{parameters, begun, invalid, reset_done, auxiliary_done, setting_made, unit_status, sensed, recalibrate_begun, seek_begun, format_legal, format_begun, numbers_of, transfer_begun};

use crate::controller::ending::plain_flags;
use crate::controller::{Controller, Registers};
use drives::numbers::{
    LogicalCylinder, LogicalHead, LogicalSector, PhysicalCylinder, PhysicalHead,
};
use drives::parts::Line;
use drives::string::DriveString;
use registers::buffer::Buffer;
use registers::command::Auxiliary;
use registers::kind::Kind;
use registers::numbers::Numbers;
use registers::running::{Format, FormatStage, Running, Stage, Transfer};
use registers::setting::Setting;
use registers::status::Flags;
use sectors::address::Address;
use transfers::ready::is_present;
use transfers::transfer::sector_wants;

// The largest GPL3 of a Format.
const LONGEST_GAP: u8 = 44;

// The numbers that a transfer's parameters name.
fn numbers_of(parameters: Buffer) -> Numbers
    ensures { result ≡ numbers_of (held parameters) }
{
    Numbers {
        head: PhysicalHead(parameters.get(0)),
        address: Address {
            cylinder: LogicalCylinder(u16::from_be_bytes([parameters.get(1), parameters.get(2)])),
            head: LogicalHead(parameters.get(3)),
            sector: LogicalSector(parameters.get(4)),
        },
        count: parameters.get(5),
    }
}

// Whether a Format's parameters are legal.
fn is_format(parameters: Buffer) -> bool
    ensures { result ≡ format_legal (held parameters) }
{
    parameters.get(1) > 0 && parameters.get(4) <= LONGEST_GAP
}

// UST of a unit that is there.
fn unit_status<S: DriveString>(string: &S, unit: u8) -> u8
    ensures { result ≡ unit_status (drive (S.DriveString.meaning string.now) unit) }
{
    let mut status = 0x18;
    if string.cylinder(unit).0 == 0 {
        status += 0x04;
    }
    if string.line(unit, Line::Ready) {
        status += 0x02;
    }
    if string.line(unit, Line::Fault) {
        status += 0x01;
    }
    status
}

impl<S: DriveString> Controller<S> {
    // The parameters in the buffer; results are none.
    pub(super) fn parameters(&self) -> Buffer
        ensures { held result ≡ parameters (seen S.DriveString self.now) }
    {
        if self.registers.results {
            Buffer::empty()
        } else {
            self.path.buffer
        }
    }

    // Takes a disk command.
    fn begin(&mut self, running: Option<Running>)
        ensures { seen S.DriveString self.new ≡ begun running (seen S.DriveString self.old) }
    {
        self.path.buffer = Buffer::empty();
        self.registers = Registers {
            running,
            flags: Flags::none(),
            results: false,
            ..self.registers
        };
    }

    pub(super) fn begin_invalid(&mut self)
        ensures { seen S.DriveString self.new ≡ invalid (seen S.DriveString self.old) }
    {
        self.begin(None);
        self.registers.flags = Flags {
            ended_high: true,
            ended_low: true,
            ..Flags::none()
        };
    }

    // The reset pin: clears all but PCN.
    pub fn reset(&mut self)
        ensures { seen S.DriveString self.new ≡ reset_done (seen S.DriveString self.old) }
    {
        self.begin(None);
        self.registers.setting = None;
    }

    pub(super) fn do_auxiliary(&mut self, auxiliary: Auxiliary)
        ensures { seen S.DriveString self.new ≡ auxiliary_done auxiliary (seen S.DriveString self.old) }
    {
        if auxiliary.reset {
            self.reset();
            return;
        }
        if auxiliary.clear_buffer && self.registers.running.is_none() {
            self.path.buffer = Buffer::empty();
        }
        if auxiliary.clear_end {
            self.registers.flags.ended_high = false;
            self.registers.flags.ended_low = false;
        }
    }

    // Specify, with what its parameters ask for.
    pub(super) fn make_setting(&mut self, setting: Option<Setting>)
        ensures { seen S.DriveString self.new ≡ setting_made setting (seen S.DriveString self.old) }
    {
        if setting.is_none() {
            self.begin_invalid();
            return;
        }
        self.finish(plain_flags(true), Buffer::empty());
        self.registers.setting = setting;
    }

    pub(super) fn sense(&mut self, unit: u8)
        ensures { seen S.DriveString self.new ≡ sensed unit (seen S.DriveString self.old) }
    {
        let status = if is_present(&self.path.string, unit) {
            unit_status(&self.path.string, unit)
        } else {
            0
        };
        self.finish(plain_flags(true), Buffer::of(&[status]));
    }

    pub(super) fn begin_recalibrate(&mut self, unit: u8)
        ensures { seen S.DriveString self.new ≡ recalibrate_begun unit (seen S.DriveString self.old) }
    {
        self.begin(Some(Running::Recalibrate { unit, pulses: 0 }));
        self.registers.units.recall(unit);
    }

    pub(super) fn begin_seek(&mut self, unit: u8, parameters: Buffer)
        ensures { seen S.DriveString self.new ≡ seek_begun unit (held parameters) (seen S.DriveString self.old) }
    {
        let target = PhysicalCylinder(u16::from_be_bytes([parameters.get(0), parameters.get(1)]));
        self.begin(Some(Running::Seek { unit, target }));
    }

    pub(super) fn begin_format(&mut self, unit: u8, setting: Setting, parameters: Buffer)
        ensures { seen S.DriveString self.new ≡ format_begun unit setting (held parameters) (seen S.DriveString self.old) }
    {
        if !is_format(parameters) {
            self.begin_invalid();
            return;
        }
        let count = parameters.get(1);
        self.begin(Some(Running::Format(Format {
            unit,
            setting,
            head: PhysicalHead(parameters.get(0)),
            count,
            pattern: parameters.get(2),
            stage: FormatStage::Opening,
            wanted: 4 * u16::from(count),
        })));
    }

    pub(super) fn begin_transfer(
        &mut self,
        kind: Kind,
        unit: u8,
        setting: Setting,
        parameters: Buffer,
    )
        ensures { seen S.DriveString self.new ≡ transfer_begun kind unit setting (held parameters) (seen S.DriveString self.old) }
    {
        let numbers = numbers_of(parameters);
        if numbers.count == 0 {
            self.begin_invalid();
            return;
        }
        self.begin(Some(Running::Transfer(Transfer {
            kind,
            unit,
            setting,
            numbers,
            stage: Stage::Search { first: true },
            wanted: sector_wants(kind, setting),
            cut: false,
        })));
    }
}
