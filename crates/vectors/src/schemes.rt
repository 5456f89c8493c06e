// The two rules, each from either start.
use check_bytes::kind::CheckKind;
use check_bytes::rule::Start;
use check_bytes::scheme::CheckScheme;

pub const CRC_FROM_ZEROS: CheckScheme<CheckKind> = CheckScheme {
    rule: CheckKind::Crc,
    start: Start::Zeros,
};

pub const CRC_FROM_ONES: CheckScheme<CheckKind> = CheckScheme {
    rule: CheckKind::Crc,
    start: Start::Ones,
};

pub const LRC_FROM_ZEROS: CheckScheme<CheckKind> = CheckScheme {
    rule: CheckKind::Lrc,
    start: Start::Zeros,
};

pub const LRC_FROM_ONES: CheckScheme<CheckKind> = CheckScheme {
    rule: CheckKind::Lrc,
    start: Start::Ones,
};

#[cfg(test)]
mod tests {
    use super::*;

    // A scheme may hold a loan of its rule.
    #[test]
    fn a_lent_rule_checks_the_same(rt: HostRuntime) {
        let rule = CheckKind::Lrc;
        let scheme = CheckScheme {
            rule: &rule,
            start: Start::Ones,
        };
        assert_eq!(rt;
            scheme.check_of(b"\x12\x34"),
            LRC_FROM_ONES.check_of(b"\x12\x34")
        );
        assert_eq!(rt; scheme.check_of(b"\x12\x34"), 0xedcb);
    }
}
