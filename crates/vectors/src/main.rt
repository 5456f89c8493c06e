// Compares check bytes with values given elsewhere, and over a dozen further byte strings with a plain long division.
// It prints a table, and ends with an error where one differs.
#![tactic(auto)]

ghost use Rattle.std.specs.Iterator.{IsFinite};

mod cases;
mod division;
mod published;
mod row;
mod schemes;

use anyhow::anyhow;
use cases::{CASES, Case, case_bytes};
use division::divide;
use published::VECTORS;
use row::Row;
use std::alloc::{AllocError, Global};

// The division of a case beside its check.
fn division_row(heap: Global, case: &Case) -> Result<Row, AllocError> {
    let bytes = case_bytes(heap, case)?;
    let expected = divide(heap, case.scheme, bytes.as_slice())?;
    Ok(Row::of(case.scheme, bytes.as_slice(), expected, None))
}

// Shows each row as it comes, and answers whether all of them agree.
fn show<I: Iterator<Item = Result<Row, AllocError>>>(
    rt: &HostRuntime,
    heading: &str,
    rows: I,
) -> anyhow::Result<bool>
    requires { I.can_next rows × IsFinite (I.remaining rows) }
{
    println!(rt; "{heading}:")?;
    let mut agree = true;
    for row in rows {
        let row = row?;
        println!(rt; "{row}")?;
        agree = agree && row.agrees();
    }
    Ok(agree)
}

fn run(rt: &HostRuntime) -> anyhow::Result<()> {
    let heap = rt.alloc();
    let published = show(
        rt,
        "Values given elsewhere",
        VECTORS.iter().map(|v| Ok(Row::of(v.scheme, v.bytes, v.expected, Some(v.source)))),
    )?;
    let divided = show(
        rt,
        "Compared with a plain bitwise long division in this program",
        CASES.iter().map(|case| division_row(heap, case)),
    )?;
    if !published || !divided {
        return Err(anyhow!("a check differs from the value that it should have"));
    }
    let vectors = VECTORS.len();
    let cases = CASES.len();
    println!(rt; "All {vectors} given values and {cases} divisions agree.")?;
    Ok(())
}

fn main(rt: HostRuntime) -> anyhow::Result<()> {
    run(&rt)
}
