ghost use Rattle.std.specs.Prelude.{◌≡◌};
ghost use Rattle.registers.specs.Ends.{error_byte, is_normal, requests_reset, shows_id_error, seek_byte, seek_normal};

// How a transfer ends. The normal end is one of them and no `Ok`, since each has an error byte and status bits.
#[derive(Clone, Copy, PartialEq, Eq)]
pub enum End {
    Normal,
    EndOfCylinder,
    Overrun,
    DataError,
    EquipmentCheck,
    NotReady,
    // with a marked ID on the track whose check is wrong, or without
    NoData { wrong_id: bool },
    NotWritable,
    MissingMark,
    // the track has no ID mark at all
    NoIds,
}

impl End {
    // The error byte, EST: bit 7 to 0 ENC, OVR, DER, EQC, NR, ND, NWR, MAM.
    pub fn error_byte(self) -> u8
        ensures { result ≡ error_byte self }
    {
        match self {
            End::Normal | End::NoIds => 0x00,
            End::EndOfCylinder => 0x80,
            End::Overrun => 0x40,
            End::DataError => 0x20,
            End::EquipmentCheck => 0x10,
            End::NotReady => 0x08,
            End::NoData { .. } => 0x04,
            End::NotWritable => 0x02,
            End::MissingMark => 0x01,
        }
    }

    pub fn is_normal(self) -> bool
        ensures { result ≡ is_normal self }
    {
        self == End::Normal
    }

    // Whether it sets RRQ, reset request.
    pub fn requests_reset(self) -> bool
        ensures { result ≡ requests_reset self }
    {
        self == End::NoIds
    }

    // Whether it sets IER, ID error.
    pub fn shows_id_error(self) -> bool
        ensures { result ≡ shows_id_error self }
    {
        self == End::NoData { wrong_id: true }
    }
}

// How a Seek or a Recalibrate ends.
#[derive(Clone, Copy, PartialEq, Eq)]
pub enum SeekEnd {
    Reached,
    NotReady,
    EquipmentCheck,
}

impl SeekEnd {
    // The interrupt status byte, IST: bit 7 to 3 SEN, RC, SER, EQC, NR, and the unit.
    pub fn status_byte(self, unit: u8) -> u8
        ensures { result ≡ seek_byte self unit }
    {
        let bits = match self {
            SeekEnd::Reached => 0x80,
            SeekEnd::NotReady => 0x28,
            SeekEnd::EquipmentCheck => 0x30,
        };
        bits + unit % 8
    }

    pub fn is_normal(self) -> bool
        ensures { result ≡ seek_normal self }
    {
        self == SeekEnd::Reached
    }
}
