ghost use Rattle.std.specs.Prelude.{◌≡◌};
ghost use Rattle.registers.specs.Settings.{id_scheme, data_scheme};

use check_bytes::kind::CheckKind;
use check_bytes::rule::Start;
use check_bytes::scheme::CheckScheme;
use drives::numbers::{LogicalHead, LogicalSector};

// What Specify sets: the check rules of IDs and of data fields, the start of their registers, the data length (DTL), and
// the last head (ETN) and last sector (ESN) of a cylinder.
#[derive(Clone, Copy)]
pub struct Setting {
    pub id_rule: CheckKind,
    pub data_rule: CheckKind,
    pub start: Start,
    pub length: u16,
    pub last_head: LogicalHead,
    pub last_sector: LogicalSector,
}

impl Setting {
    // What the check of an ID depends on besides its bytes.
    pub fn id_scheme(self) -> CheckScheme<CheckKind>
        ensures { result ≡ id_scheme self }
    {
        CheckScheme {
            rule: self.id_rule,
            start: self.start,
        }
    }

    // What the check of a data field depends on besides its bytes.
    pub fn data_scheme(self) -> CheckScheme<CheckKind>
        ensures { result ≡ data_scheme self }
    {
        CheckScheme {
            rule: self.data_rule,
            start: self.start,
        }
    }
}
