ghost use Rattle.std.specs.Prelude.{◌≡◌};
ghost use Rattle.controller.specs.State.{seen};
ghost use Rattle.controller.specs.Turns.{pulse_followed, towards, seek_turn, recalibrate_turn, turned};

use crate::controller::Controller;
use drives::numbers::PhysicalCylinder;
use drives::parts::Direction;
use drives::string::DriveString;
use registers::end::SeekEnd;
use registers::running::Running;
use std::ops::ControlFlow::{Break, Continue};
use transfers::ready::is_ready;

// The direction from the cylinder that the controller believes in to another one.
fn direction_towards(from: u16, target: u16) -> Direction
    ensures { result ≡ towards from target }
{
    if from < target {
        Direction::Inward
    } else {
        Direction::Outward
    }
}

impl<S: DriveString> Controller<S> {
    // One step pulse, and PCN follows it.
    fn pulse_followed(&mut self, unit: u8, direction: Direction)
        ensures { seen S.DriveString self.new ≡ pulse_followed unit direction (seen S.DriveString self.old) }
    {
        self.path.string.pulse(unit, direction);
        self.registers.units.follow_pulse(unit, direction);
    }

    fn seek_turn(&mut self, unit: u8, target: PhysicalCylinder)
        ensures { seen S.DriveString self.new ≡ seek_turn unit target (seen S.DriveString self.old) }
    {
        let from = self.registers.units.believed(unit).0;
        if !is_ready(&self.path.string, unit) {
            self.end_seek(SeekEnd::NotReady, unit);
        } else if from == target.0 {
            self.end_seek(SeekEnd::Reached, unit);
        } else {
            self.pulse_followed(unit, direction_towards(from, target.0));
        }
    }

    fn recalibrate_turn(&mut self, unit: u8, pulses: u16)
        ensures { seen S.DriveString self.new ≡ recalibrate_turn unit pulses (seen S.DriveString self.old) }
    {
        if !is_ready(&self.path.string, unit) {
            self.end_seek(SeekEnd::NotReady, unit);
        } else if self.path.string.cylinder(unit).0 == 0 {
            self.end_seek(SeekEnd::Reached, unit);
        } else if pulses >= 1023 {
            self.end_seek(SeekEnd::EquipmentCheck, unit);
        } else {
            self.path.string.pulse(unit, Direction::Outward);
            let pulses = pulses + 1;
            self.registers.running = Some(Running::Recalibrate { unit, pulses });
        }
    }

    // One turn: a step of the running command; none where none runs.
    pub fn turn(&mut self)
        ensures { seen S.DriveString self.new ≡ turned (seen S.DriveString self.old) }
    {
        match self.registers.running {
            None => (),
            Some(Running::Seek { unit, target }) => self.seek_turn(unit, target),
            Some(Running::Recalibrate { unit, pulses }) => self.recalibrate_turn(unit, pulses),
            Some(Running::Transfer(t)) => match self.path.transfer_turn(t) {
                Continue(t) => self.registers.running = Some(Running::Transfer(t)),
                Break((end, t)) => self.end_transfer(end, t.numbers),
            },
            Some(Running::Format(f)) => match self.path.format_turn(f) {
                Continue(f) => self.registers.running = Some(Running::Format(f)),
                Break((end, f)) => self.end_format(end, f.count),
            },
        }
    }
}
