ghost use Rattle.std.specs.Prelude.{◌≡◌};
ghost use Rattle.registers.specs.Addresses.{advanced, is_last, counted};

use crate::setting::Setting;
use drives::numbers::{LogicalCylinder, LogicalHead, LogicalSector, PhysicalHead};
use sectors::address::Address;

// The numbers of a transfer: the physical head (PHN), the logical numbers of the sector that is next (LCN, LHN, LSN), and
// how many sectors are left (SCNT).
#[derive(Clone, Copy)]
pub struct Numbers {
    pub head: PhysicalHead,
    pub address: Address,
    pub count: u8,
}

impl Numbers {
    // One sector fewer is left.
    pub fn counted(self) -> Numbers
        ensures { result ≡ counted self }
    {
        Numbers {
            count: self.count.saturating_sub(1),
            ..self
        }
    }

    // Whether this is the last sector of its cylinder.
    pub fn is_last(self, setting: Setting) -> bool
        ensures { result ≡ is_last setting self }
    {
        self.address.sector == setting.last_sector && self.address.head == setting.last_head
    }

    // The numbers of the next sector.
    pub fn advanced(self, setting: Setting) -> Numbers
        ensures { result ≡ advanced setting self }
    {
        let Address {
            cylinder,
            head,
            sector,
        } = self.address;
        if sector != setting.last_sector {
            let sector = LogicalSector(sector.0.wrapping_add(1));
            let address = Address {
                sector,
                ..self.address
            };
            return Numbers { address, ..self };
        }
        let sector = LogicalSector(0);
        if head != setting.last_head {
            let physical = PhysicalHead(self.head.0.wrapping_add(1));
            let head = LogicalHead(head.0.wrapping_add(1));
            let address = Address {
                cylinder,
                head,
                sector,
            };
            return Numbers {
                head: physical,
                address,
                ..self
            };
        }
        let address = Address {
            cylinder: LogicalCylinder(cylinder.0.wrapping_add(1)),
            head: LogicalHead(0),
            sector,
        };
        Numbers {
            head: PhysicalHead(0),
            address,
            ..self
        }
    }
}
