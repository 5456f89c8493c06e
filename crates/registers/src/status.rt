ghost use Rattle.std.specs.Prelude.{◌≡◌};
ghost use Rattle.registers.specs.Requests.{data_request, status_byte, interrupt, no_flags};

use crate::bits::weight_if;
use crate::running::Running;

// Status bits that stay from call to call: command end high and low, reset request, ID error.
#[derive(Clone, Copy)]
pub struct Flags {
    pub ended_high: bool,
    pub ended_low: bool,
    pub reset_request: bool,
    pub id_error: bool,
}

impl Flags {
    pub fn none() -> Flags
        ensures { result ≡ no_flags }
    {
        Flags {
            ended_high: false,
            ended_low: false,
            reset_request: false,
            id_error: false,
        }
    }

    // The interrupt line.
    pub fn interrupt(self) -> bool
        ensures { result ≡ interrupt self }
    {
        self.ended_high || self.ended_low
    }
}

// DRQ, the data request, with so many bytes in the buffer.
pub fn data_request(running: Option<Running>, count: u8) -> bool
    ensures { result ≡ data_request running count }
{
    if running.map_or(0, Running::wanted) > 0 {
        return count < 6;
    }
    match running {
        Some(Running::Transfer(transfer)) if transfer.kind.hands_out() => {
            count >= 3 || (count > 0 && !transfer.stage.is_mid_sector())
        }
        _ => false,
    }
}

// The status byte, bit 7 to 0: CB, CEH, CEL, SRQ, RRQ, IER, NCI, DRQ. SRQ and NCI are 0.
pub fn status_byte(running: Option<Running>, flags: Flags, count: u8) -> u8
    ensures { result ≡ status_byte running flags count }
{
    weight_if(running.is_some(), 0x80)
        + weight_if(flags.ended_high, 0x40)
        + weight_if(flags.ended_low, 0x20)
        + weight_if(flags.reset_request, 0x08)
        + weight_if(flags.id_error, 0x04)
        + weight_if(data_request(running, count), 0x01)
}
