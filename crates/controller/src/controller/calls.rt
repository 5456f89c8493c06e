ghost use Rattle.std.specs.Prelude.{◌≡◌, length};
ghost use Rattle.registers.specs.Buffers.{held};
ghost use Rattle.registers.specs.Requests.{data_request, status_byte, interrupt};
ghost use Rattle.controller.specs.State.{seen, fresh};
ghost use Rattle.controller.specs.Starting.{command_step};
ghost use Rattle.controller.specs.Calls.{less_wanted, byte_kept, byte_given, is_readable, write_step, read_step, terminal_step, line_step};

use crate::controller::{Controller, Registers};
use drives::parts::Line;
use drives::string::DriveString;
use registers::buffer::Buffer;
use registers::command::{Command, decide};
use registers::kind::Kind;
use registers::refusal::Refusal;
use registers::running::{Format, Running, Transfer};
use registers::specify::setting_of;
use registers::status::{Flags, data_request, status_byte};
use registers::units::UnitRecords;
use transfers::path::DataPath;
use transfers::ready::is_present;

// The running command, wanting one byte fewer.
fn less_wanted(running: Running) -> Running
    ensures { result ≡ less_wanted running }
{
    match running {
        Running::Transfer(t) => Running::Transfer(Transfer {
            wanted: t.wanted.saturating_sub(1),
            ..t
        }),
        Running::Format(f) => Running::Format(Format {
            wanted: f.wanted.saturating_sub(1),
            ..f
        }),
        _ => running,
    }
}

impl<S: DriveString> Controller<S> {
    // A fresh controller over a string of drives.
    pub fn new(string: S) -> Controller<S>
        ensures state { seen S.DriveString result ≡ fresh (S.DriveString.meaning string) (S.DriveString.rest string) }
        ensures string { result.path.string ≡ string }
    {
        Controller {
            path: DataPath {
                string,
                buffer: Buffer::empty(),
            },
            registers: Registers {
                running: None,
                flags: Flags::none(),
                setting: None,
                units: UnitRecords::new(),
                results: false,
            },
        }
    }

    // Ends the controller and gives its string back.
    pub fn end(self) -> S
        ensures { result ≡ self.path.string }
    {
        self.path.string
    }

    // The status register.
    pub fn status(&self) -> u8
        ensures { result ≡ status_byte self.now.registers.running self.now.registers.flags (length (held self.now.path.buffer)) }
    {
        status_byte(
            self.registers.running,
            self.registers.flags,
            self.path.buffer.count(),
        )
    }

    // The interrupt line.
    pub fn interrupt(&self) -> bool
        ensures { result ≡ interrupt self.now.registers.flags }
    {
        self.registers.flags.interrupt()
    }

    // The DMA request.
    pub fn dma_request(&self) -> bool
        ensures { result ≡ data_request self.now.registers.running (length (held self.now.path.buffer)) }
    {
        data_request(self.registers.running, self.path.buffer.count())
    }

    // A parameter while no command runs, and no results stand in the buffer.
    fn keep_byte(&mut self, byte: u8) -> Result<(), Refusal>
        ensures { (result, seen S.DriveString self.new) ≡ byte_kept byte (seen S.DriveString self.old) }
    {
        if self.path.buffer.count() >= 8 {
            return Err(Refusal::Full);
        }
        self.path.buffer = self.path.buffer.with(byte);
        Ok(())
    }

    // A byte for the running command.
    fn give_byte(&mut self, running: Running, byte: u8) -> Result<(), Refusal>
        ensures { (result, seen S.DriveString self.new) ≡ byte_given byte running (seen S.DriveString self.old) }
    {
        if running.wanted() == 0 {
            return Err(Refusal::NotWanted);
        }
        self.keep_byte(byte)?;
        self.registers.running = Some(less_wanted(running));
        Ok(())
    }

    // Writes the data register.
    pub fn write_data(&mut self, byte: u8) -> Result<(), Refusal>
        ensures { (result, seen S.DriveString self.new) ≡ write_step byte (seen S.DriveString self.old) }
    {
        if let Some(running) = self.registers.running {
            return self.give_byte(running, byte);
        }
        if self.registers.results {
            self.path.buffer = Buffer::empty();
            self.registers.results = false;
        }
        self.keep_byte(byte)
    }

    // Whether the bytes in the buffer are for the host.
    fn is_readable(&self) -> bool
        ensures { result ≡ is_readable (seen S.DriveString self.now) }
    {
        match self.registers.running {
            Some(running) => running.hands_bytes(),
            None => self.registers.results,
        }
    }

    // Reads the data register.
    pub fn read_data(&mut self) -> Result<u8, Refusal>
        ensures { (result, seen S.DriveString self.new) ≡ read_step (seen S.DriveString self.old) }
    {
        if !self.is_readable() || self.path.buffer.count() == 0 {
            return Err(Refusal::NothingToRead);
        }
        let byte = self.path.buffer.get(0);
        self.path.buffer = self.path.buffer.rest();
        Ok(byte)
    }

    // Writes the command register.
    pub fn write_command(&mut self, byte: u8) -> Result<(), Refusal>
        ensures { (result, seen S.DriveString self.new) ≡ command_step byte (seen S.DriveString self.old) }
    {
        let parameters = self.parameters();
        let busy = self.registers.running.is_some();
        match decide(byte, parameters.count(), busy, self.registers.setting)? {
            Command::Auxiliary(auxiliary) => self.do_auxiliary(auxiliary),
            Command::Specify => self.make_setting(setting_of(parameters)),
            Command::SenseUnitStatus(unit) => self.sense(unit),
            Command::Recalibrate(unit) => self.begin_recalibrate(unit),
            Command::Seek(unit) => self.begin_seek(unit, parameters),
            Command::Format(unit, setting) => self.begin_format(unit, setting, parameters),
            Command::Transfer(kind, unit, setting) => {
                self.begin_transfer(kind, unit, setting, parameters)
            }
            Command::Invalid => self.begin_invalid(),
        }
        Ok(())
    }

    // Terminal count: the host wants or has no more bytes of this sector.
    pub fn terminal_count(&mut self) -> Result<(), Refusal>
        ensures { (result, seen S.DriveString self.new) ≡ terminal_step (seen S.DriveString self.old) }
    {
        let Some(Running::Transfer(t)) = self.registers.running else {
            return Err(Refusal::NoTransfer);
        };
        match t.kind {
            Kind::Check => return Err(Refusal::NoTransfer),
            Kind::Read => self.path.buffer = Buffer::empty(),
            Kind::Write => (),
        }
        self.registers.running = Some(Running::Transfer(Transfer {
            wanted: 0,
            cut: true,
            ..t
        }));
        Ok(())
    }

    // Sets a line of a unit.
    pub fn set_line(&mut self, unit: u8, line: Line, value: bool) -> Result<(), Refusal>
        ensures { (result, seen S.DriveString self.new) ≡ line_step unit line value (seen S.DriveString self.old) }
    {
        if !is_present(&self.path.string, unit) {
            return Err(Refusal::MissingUnit);
        }
        self.path.string.set_line(unit, line, value);
        Ok(())
    }
}
