// An area master's task: the signal plan of a junction, its record, and the check bytes that guard it on the drive.
#![tactic(auto)]

mod rack;
mod sample;
mod text;

use check_bytes::kind::CheckKind;
use check_bytes::rule::Start;
use check_bytes::scheme::CheckScheme;
use plans::plan::Plan;
use text::Hex;

// What guards a record on the drive.
const GUARD: CheckScheme<CheckKind> = CheckScheme {
    rule: CheckKind::Crc,
    start: Start::Ones,
};

// Shows the plan, its record, and the record's check bytes.
fn show_plan(rt: &HostRuntime, plan: &Plan) -> anyhow::Result<()> {
    let heap = rt.alloc();
    let record = plan.encode(heap)?;
    let check = GUARD.check_bytes_of(heap, record.as_slice())?;
    let bytes = Hex(record.as_slice());
    let guard = Hex(check.as_slice());
    let rule = GUARD.rule;
    let start = GUARD.start_register();
    println!(rt; "The plan: {plan}")?;
    println!(rt; "Its record: {bytes}")?;
    println!(rt; "Its check bytes, {rule} from {start:04X}: {guard}")?;
    Ok(())
}

// Shows what the bytes of a record say.
fn show_record(rt: &HostRuntime, what: &str, record: &[u8]) -> anyhow::Result<()> {
    match Plan::decode(rt.alloc(), record) {
        Ok(plan) => println!(rt; "{what}: {plan}")?,
        Err(fault) => println!(rt; "{what}: no plan, since {fault}")?,
    }
    Ok(())
}

fn run(rt: &HostRuntime) -> anyhow::Result<()> {
    let heap = rt.alloc();
    match sample::plan_of_junction_112(heap) {
        Ok(plan) => {
            show_plan(rt, &plan)?;
            let mut record = plan.encode(heap)?;
            show_record(rt, "Read back from its record", record.as_slice())?;
            sample::lengthen_side_road_green(record.as_mut_slice());
            show_record(
                rt,
                "With the side road's green lengthened by 20 s",
                record.as_slice(),
            )?;
        }
        Err(fault) => println!(rt; "The plan is not legal: {fault}")?,
    }
    rack::show_rack(rt)
}

fn main(rt: HostRuntime) -> anyhow::Result<()> {
    run(&rt)
}
