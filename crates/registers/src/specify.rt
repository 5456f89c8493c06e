ghost use Rattle.std.specs.Prelude.{◌≡◌};
ghost use Rattle.registers.specs.Buffers.{held};
ghost use Rattle.registers.specs.Settings.{mode_legal, length_byte_legal, rule_chosen, start_chosen, specified};

use crate::bits::is_set;
use crate::buffer::Buffer;
use crate::setting::Setting;
use check_bytes::kind::CheckKind;
use check_bytes::rule::Start;
use drives::numbers::{LogicalHead, LogicalSector};

// MODE: bit 7 is 0, ECC is 0, SSEC is 1.
fn is_mode(mode: u8) -> bool
    ensures { result ≡ mode_legal mode }
{
    !is_set(mode, 7) && !is_set(mode, 6) && is_set(mode, 4)
}

// DTLH: bit 7 is 1, POL is 1.
fn is_length_byte(high: u8) -> bool
    ensures { result ≡ length_byte_legal high }
{
    is_set(high, 7) && is_set(high, 4)
}

// CRCS in MODE chooses the check rule.
fn rule_of(mode: u8) -> CheckKind
    ensures { result ≡ rule_chosen mode }
{
    if is_set(mode, 5) {
        CheckKind::Lrc
    } else {
        CheckKind::Crc
    }
}

// CRC in DTLH chooses the register's start.
fn start_of(high: u8) -> Start
    ensures { result ≡ start_chosen high }
{
    if is_set(high, 6) {
        Start::Ones
    } else {
        Start::Zeros
    }
}

// The setting that Specify's parameters ask for, or none where one of them is not legal.
pub fn setting_of(parameters: Buffer) -> Option<Setting>
    ensures { result ≡ specified (held parameters) }
{
    let mode = parameters.get(0);
    let high = parameters.get(1);
    let length = u16::from_be_bytes([high % 16, parameters.get(2)]);
    if !is_mode(mode) || !is_length_byte(high) || length < 128 {
        return None;
    }
    let rule = rule_of(mode);
    Some(Setting {
        id_rule: rule,
        data_rule: rule,
        start: start_of(high),
        length,
        last_head: LogicalHead(parameters.get(3)),
        last_sector: LogicalSector(parameters.get(4)),
    })
}
