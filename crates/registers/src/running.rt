ghost use Rattle.std.specs.Prelude.{◌≡◌};
ghost use Rattle.registers.specs.Requests.{wanted, hands_bytes, is_mid_sector};
ghost use Rattle.registers.specs.Tracks.{transfer_track, format_track};

use crate::end::End;
use crate::kind::Kind;
use crate::numbers::Numbers;
use crate::setting::Setting;
use drives::numbers::{PhysicalCylinder, PhysicalHead, Slot};
use drives::parts::Track;

// What the next turn of a transfer does.
#[derive(Clone, Copy)]
pub enum Stage {
    // looks for the sector that is next; the command's first turn makes more tests
    Search { first: bool },
    // moves a data byte, after so many
    Bytes { slot: Slot, done: u16 },
    // tests or writes the check
    CheckBytes { slot: Slot },
    // makes this end, once the host has taken all bytes
    Waiting(End),
}

// A running Read Data, Check or Write Data, under the setting of its start.
#[derive(Clone, Copy)]
pub struct Transfer {
    pub kind: Kind,
    pub unit: u8,
    pub setting: Setting,
    pub numbers: Numbers,
    pub stage: Stage,
    // data bytes that the host has yet to write for the sector that is next
    pub wanted: u16,
    // terminal count came for this sector
    pub cut: bool,
}

// What the next turn of a Format does.
#[derive(Clone, Copy)]
pub enum FormatStage {
    // lowers all marks of the track
    Opening,
    // writes this slot
    Writing(Slot),
}

// A running Format, with the slots that are left (SCNT) and the data byte of all of them (DPAT).
#[derive(Clone, Copy)]
pub struct Format {
    pub unit: u8,
    pub setting: Setting,
    pub head: PhysicalHead,
    pub count: u8,
    pub pattern: u8,
    pub stage: FormatStage,
    // bytes that the host has yet to write
    pub wanted: u16,
}

// The command that runs.
#[derive(Clone, Copy)]
pub enum Running {
    Seek { unit: u8, target: PhysicalCylinder },
    // after so many pulses
    Recalibrate { unit: u8, pulses: u16 },
    Transfer(Transfer),
    Format(Format),
}

impl Stage {
    // Whether a sector's first byte turn is made and its last one is not.
    pub fn is_mid_sector(self) -> bool
        ensures { result ≡ is_mid_sector self }
    {
        matches!(self, Stage::Bytes { done, .. } if done > 0)
    }
}

impl Transfer {
    // The track of the sector that is next or in work.
    pub fn track(self) -> Track
        ensures { result ≡ transfer_track self }
    {
        Track {
            unit: self.unit,
            head: self.numbers.head,
        }
    }
}

impl Format {
    pub fn track(self) -> Track
        ensures { result ≡ format_track self }
    {
        Track {
            unit: self.unit,
            head: self.head,
        }
    }
}

impl Running {
    // How many bytes it still wants from the host.
    pub fn wanted(self) -> u16
        ensures { result ≡ wanted self }
    {
        match self {
            Running::Transfer(transfer) => transfer.wanted,
            Running::Format(format) => format.wanted,
            _ => 0,
        }
    }

    // Whether the bytes in the buffer are for the host.
    pub fn hands_bytes(self) -> bool
        ensures { result ≡ hands_bytes self }
    {
        matches!(self, Running::Transfer(transfer) if transfer.kind.hands_out())
    }
}
