use check_bytes::kind::CheckKind;
use check_bytes::rule::Start;
use check_bytes::scheme::CheckScheme;
use std::alloc::{AllocError, Global};

// The generators, highest coefficient first.
const CRC: [bool; 17] = [
    true, false, false, false, true, false, false, false, false, false, false, true, false, false,
    false, false, true,
];

const LRC: [bool; 17] = [
    true, false, false, false, false, false, false, false, false, false, false, false, false,
    false, false, false, true,
];

fn generator(kind: CheckKind) -> &'static [bool; 17] {
    match kind {
        CheckKind::Crc => &CRC,
        CheckKind::Lrc => &LRC,
    }
}

// A byte's coefficients, highest first.
fn coefficients(byte: u8) -> [bool; 8] {
    [0x80, 0x40, 0x20, 0x10, 8, 4, 2, 1].map(|place: u8| byte & place != 0)
}

// The dividend's coefficients, highest first: the bytes, then sixteen zeros, the first sixteen turned over where the
// register starts at ones.
fn dividend(heap: Global, start: Start, bytes: &[u8]) -> Result<Vec<bool>, AllocError> {
    let mut bits = Vec::new(heap);
    for byte in bytes.iter().chain(&[0, 0]) {
        bits.extend_from_slice(&coefficients(*byte))?;
    }
    if start == Start::Ones {
        bits.iter_mut().take(16).for_each(|bit| *bit = !*bit);
    }
    Ok(bits)
}

// Takes the generator away from the coefficients that begin here.
fn subtract(bits: &mut [bool], generator: &[bool; 17]) {
    for (bit, coefficient) in bits.iter_mut().zip(generator) {
        *bit = *bit != *coefficient;
    }
}

// Long division as on paper, a coefficient after the other; what is left stands in the last sixteen.
fn reduce(bits: &mut [bool], generator: &[bool; 17]) {
    for i in 0..bits.len().saturating_sub(16) {
        if bits[i] {
            subtract(&mut bits[i..], generator);
        }
    }
}

// The last sixteen coefficients as a number.
fn last_sixteen(bits: &[bool]) -> u32 {
    bits.iter()
        .rev()
        .take(16)
        .rev()
        .fold(0, |number, bit| number << 1 | *bit as u32)
}

// The remainder by long division, which shares nothing with the check register.
pub fn divide(
    heap: Global,
    scheme: CheckScheme<CheckKind>,
    bytes: &[u8],
) -> Result<u32, AllocError> {
    let mut bits = dividend(heap, scheme.start, bytes)?;
    reduce(bits.as_mut_slice(), generator(scheme.rule));
    Ok(last_sixteen(bits.as_slice()))
}
