ghost use Rattle.std.specs.Prelude.{◌≡◌};
ghost use Rattle.registers.specs.Refusals.{refusal_number};

// Why the port declines a call, by its number. A declined call alters nothing.
#[derive(Clone, Copy, Debug, PartialEq, Eq)]
pub enum Refusal {
    // a running command wants no byte
    NotWanted = 5,
    // the buffer, or a prepared ticket, holds eight bytes
    Full = 6,
    // no byte is there for the host
    NothingToRead = 7,
    // a disk command is written, or a ticket issued, while one runs
    Busy = 8,
    // terminal count while neither Read Data nor Write Data runs
    NoTransfer = 9,
    // a line is set on a missing unit
    MissingUnit = 10,
    // a ticket is collected while a command runs
    NotEnded = 11,
}

impl Refusal {
    pub fn number(self) -> u8
        ensures { result ≡ refusal_number self }
    {
        self as u8
    }
}
