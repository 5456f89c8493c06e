ghost use Rattle.std.specs.Prelude.{◌≡◌};
ghost use Rattle.registers.specs.Commands.{decided};

use crate::bits::is_set;
use crate::kind::Kind;
use crate::refusal::Refusal;
use crate::setting::Setting;

// What an auxiliary command asks for. Its bit HSRQ has no effect.
#[derive(Clone, Copy)]
pub struct Auxiliary {
    pub clear_end: bool,
    pub clear_buffer: bool,
    pub reset: bool,
}

// What a command byte asks for, as far as the byte, the number of parameters and an earlier Specify say. A transfer runs
// under that Specify's setting.
#[derive(Clone, Copy)]
pub enum Command {
    Auxiliary(Auxiliary),
    Specify,
    SenseUnitStatus(u8),
    Recalibrate(u8),
    Seek(u8),
    Format(u8, Setting),
    Transfer(Kind, u8, Setting),
    Invalid,
}

// The command byte has five code bits and, lowest, three unit bits. The lowest code bit is ignored, so that each command
// has sixteen bytes. A disk command is refused while another one runs.
#[tactic(auto, unfolding(crate::specs::Commands::decided))]
pub fn decide(byte: u8, count: u8, busy: bool, setting: Option<Setting>) -> Result<Command, Refusal>
    ensures { result ≡ decided byte count busy setting }
{
    let unit = byte % 8;
    Ok(match byte {
        0x00..=0x0f => Command::Auxiliary(Auxiliary {
            clear_end: is_set(byte, 3),
            clear_buffer: is_set(byte, 1),
            reset: is_set(byte, 0),
        }),
        _ if busy => return Err(Refusal::Busy),
        0x20..=0x2f if count == 8 && unit == 0 => Command::Specify,
        0x30..=0x3f if count == 0 => Command::SenseUnitStatus(unit),
        0x50..=0x5f if count == 0 => Command::Recalibrate(unit),
        0x60..=0x6f if count == 2 => Command::Seek(unit),
        0x70..=0x7f if count == 5 && let Some(setting) = setting => Command::Format(unit, setting),
        0xb0..=0xbf if count == 6 && let Some(setting) = setting => {
            Command::Transfer(Kind::Read, unit, setting)
        }
        0xc0..=0xcf if count == 6 && let Some(setting) = setting => {
            Command::Transfer(Kind::Check, unit, setting)
        }
        0xf0..=0xff if count == 6 && let Some(setting) = setting => {
            Command::Transfer(Kind::Write, unit, setting)
        }
        _ => Command::Invalid,
    })
}
