ghost use Rattle.std.specs.Prelude.{◌≡◌};
ghost use Rattle.registers.specs.Kinds.{hands_out, takes_bytes, writes};

// The transfers that search for sectors by their IDs.
#[derive(Clone, Copy, PartialEq, Eq)]
pub enum Kind {
    Read,
    Check,
    Write,
}

impl Kind {
    // Whether it brings data bytes to the host. Its end waits until the host has them.
    pub fn hands_out(self) -> bool
        ensures { result ≡ hands_out self }
    {
        self == Kind::Read
    }

    // Whether it wants data bytes from the host: only a transfer that writes does.
    pub fn takes_bytes(self) -> bool
        ensures { result ≡ takes_bytes self }
    {
        self.writes()
    }

    // Whether it writes sectors, and so opens and closes them. The others need a data mark.
    pub fn writes(self) -> bool
        ensures { result ≡ writes self }
    {
        self == Kind::Write
    }
}
