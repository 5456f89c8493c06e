use crate::schemes::{CRC_FROM_ONES, CRC_FROM_ZEROS, LRC_FROM_ONES, LRC_FROM_ZEROS};
use check_bytes::kind::CheckKind;
use check_bytes::scheme::CheckScheme;
use std::alloc::{AllocError, Global};

// A byte string made from a seed, long or short.
#[derive(Clone, Copy)]
pub struct Case {
    pub scheme: CheckScheme<CheckKind>,
    pub length: usize,
    pub seed: u32,
}

pub const CASES: [Case; 14] = [
    Case {
        scheme: CRC_FROM_ZEROS,
        length: 1,
        seed: 1,
    },
    Case {
        scheme: CRC_FROM_ONES,
        length: 1,
        seed: 2,
    },
    Case {
        scheme: LRC_FROM_ZEROS,
        length: 1,
        seed: 3,
    },
    Case {
        scheme: LRC_FROM_ONES,
        length: 1,
        seed: 4,
    },
    Case {
        scheme: CRC_FROM_ONES,
        length: 4,
        seed: 5,
    },
    Case {
        scheme: LRC_FROM_ONES,
        length: 4,
        seed: 6,
    },
    Case {
        scheme: CRC_FROM_ZEROS,
        length: 127,
        seed: 7,
    },
    Case {
        scheme: CRC_FROM_ONES,
        length: 128,
        seed: 8,
    },
    Case {
        scheme: LRC_FROM_ZEROS,
        length: 129,
        seed: 9,
    },
    Case {
        scheme: LRC_FROM_ONES,
        length: 512,
        seed: 10,
    },
    Case {
        scheme: CRC_FROM_ZEROS,
        length: 1024,
        seed: 11,
    },
    Case {
        scheme: CRC_FROM_ONES,
        length: 4095,
        seed: 12,
    },
    Case {
        scheme: LRC_FROM_ZEROS,
        length: 4095,
        seed: 13,
    },
    Case {
        scheme: LRC_FROM_ONES,
        length: 4094,
        seed: 14,
    },
];

// The case's bytes, from a linear congruential generator.
pub fn case_bytes(heap: Global, case: &Case) -> Result<Vec<u8>, AllocError> {
    (0..case.length)
        .scan(case.seed, |state, _| {
            *state = state.wrapping_mul(1_664_525).wrapping_add(1_013_904_223);
            Some((*state >> 24) as u8)
        })
        .collect(heap)
}
