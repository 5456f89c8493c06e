use crate::schemes::{CRC_FROM_ONES, CRC_FROM_ZEROS, LRC_FROM_ONES, LRC_FROM_ZEROS};
use check_bytes::kind::CheckKind;
use check_bytes::scheme::CheckScheme;

// A value that stands elsewhere, and where.
#[derive(Clone, Copy)]
pub struct Vector {
    pub scheme: CheckScheme<CheckKind>,
    pub bytes: &'static [u8],
    pub expected: u32,
    pub source: &'static str,
}

pub const VECTORS: [Vector; 10] = [
    Vector {
        scheme: CRC_FROM_ZEROS,
        bytes: b"123456789",
        expected: 0x31c3,
        source: "CRC-16/XMODEM, check, in the CRC RevEng catalogue",
    },
    Vector {
        scheme: CRC_FROM_ONES,
        bytes: b"123456789",
        expected: 0x29b1,
        source: "CRC-16/IBM-3740, check, in the CRC RevEng catalogue",
    },
    Vector {
        scheme: CRC_FROM_ZEROS,
        bytes: b"123456789\x31\xc3",
        expected: 0x0000,
        source: "CRC-16/XMODEM, residue, in the CRC RevEng catalogue",
    },
    Vector {
        scheme: CRC_FROM_ONES,
        bytes: b"123456789\x29\xb1",
        expected: 0x0000,
        source: "CRC-16/IBM-3740, residue, in the CRC RevEng catalogue",
    },
    Vector {
        scheme: CRC_FROM_ZEROS,
        bytes: b"",
        expected: 0x0000,
        source: "worked example: no bytes",
    },
    Vector {
        scheme: CRC_FROM_ONES,
        bytes: b"",
        expected: 0xffff,
        source: "worked example: no bytes",
    },
    Vector {
        scheme: LRC_FROM_ZEROS,
        bytes: b"",
        expected: 0x0000,
        source: "worked example: no bytes",
    },
    Vector {
        scheme: LRC_FROM_ONES,
        bytes: b"",
        expected: 0xffff,
        source: "worked example: no bytes",
    },
    Vector {
        scheme: LRC_FROM_ZEROS,
        bytes: b"\x12\x34\x56",
        expected: 0x3444,
        source: "worked example: 12 34 56",
    },
    Vector {
        scheme: LRC_FROM_ONES,
        bytes: b"\x12\x34",
        expected: 0xedcb,
        source: "worked example: 12 34",
    },
];
