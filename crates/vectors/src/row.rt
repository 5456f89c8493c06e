ghost use Rattle.std.specs.Prelude.{◌≡◌, ◌==◌};
ghost use Rattle.check_bytes.specs.Schemes.{divider_of, check_by};

use check_bytes::kind::CheckKind;
use check_bytes::scheme::CheckScheme;
use std::fmt;

// One comparison.
#[derive(Drop)]
pub struct Row {
    scheme: CheckScheme<CheckKind>,
    length: usize,
    computed: u32,
    expected: u32,
    source: Option<&'static str>,
}

impl Row {
    // The check of the bytes beside the value that it should have, and where that value stands.
    pub fn of(
        scheme: CheckScheme<CheckKind>,
        bytes: &[u8],
        expected: u32,
        source: Option<&'static str>,
    ) -> Row
        ensures computed { result.computed ≡ check_by (divider_of scheme) bytes.now }
        ensures expected { result.expected ≡ expected }
    {
        Row {
            scheme,
            length: bytes.len(),
            computed: scheme.check_of(bytes),
            expected,
            source,
        }
    }

    pub fn agrees(&self) -> bool
        ensures { result ≡ (self.now.computed == self.now.expected) }
    {
        self.computed == self.expected
    }
}

impl fmt::Display for Row {
    fn fmt<W: fmt::Write>(&self, f: &mut fmt::Formatter<W>) -> fmt::Result {
        let rule = self.scheme.rule;
        let start = self.scheme.start_register();
        let length = self.length;
        let computed = self.computed;
        let expected = self.expected;
        let verdict = if self.agrees() { "agrees" } else { "DIFFERS" };
        write!(
            f,
            "{rule:<16} from {start:04X}  {length:>4} bytes  computed {computed:04X}  expected {expected:04X}  {verdict}"
        )?;
        if let Some(source) = self.source {
            write!(f, "  ({source})")?;
        }
        Ok(())
    }
}
