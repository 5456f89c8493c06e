ghost use Rattle.std.specs.Prelude.{◌≡◌};
ghost use Rattle.controller.specs.State.{seen};
ghost use Rattle.runs.specs.Calls.{call_step};

use controller::controller::Controller;
use drives::parts::Line;
use drives::string::DriveString;
use registers::refusal::Refusal;

// A call of the port.
#[derive(Clone, Copy)]
pub enum Call {
    WriteData(u8),
    ReadData,
    WriteCommand(u8),
    Turn,
    TerminalCount,
    SetLine(u8, Line, bool),
    Reset,
}

// What the port answers: that it declines the call, or the byte that was read, if the call reads one.
pub type Answer = Result<Option<u8>, Refusal>;

// Makes a call.
pub fn make<S: DriveString>(port: &mut Controller<S>, call: Call) -> Answer
    ensures { (result, seen S.DriveString port.new) ≡ call_step call (seen S.DriveString port.old) }
{
    match call {
        Call::WriteData(byte) => port.write_data(byte)?,
        Call::ReadData => return port.read_data().map(Some),
        Call::WriteCommand(byte) => port.write_command(byte)?,
        Call::Turn => port.turn(),
        Call::TerminalCount => port.terminal_count()?,
        Call::SetLine(unit, line, value) => port.set_line(unit, line, value)?,
        Call::Reset => port.reset(),
    }
    Ok(None)
}
