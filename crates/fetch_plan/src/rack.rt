use drives::collar::Collar;
use drives::pair::Pair;
use drives::parts::Line;
use drives::string::DriveString;
use images::blank::blank_image;
use images::image::{new_cartridge, new_image};
use images::layers::check_string;

// What a unit shows.
fn show_unit<S: DriveString>(rt: &HostRuntime, string: &S, unit: u8) -> anyhow::Result<()> {
    let g = string.geometry(unit);
    let (cylinders, heads, slots, length) = (g.cylinders, g.heads, g.slots, g.length);
    let cylinder = string.cylinder(unit).0;
    let ready = string.line(unit, Line::Ready);
    let protect = string.line(unit, Line::Protect);
    let fault = string.line(unit, Line::Fault);
    println!(rt;
        "  unit {unit}: {cylinders} cylinders, {heads} heads, {slots} slots of {length} data bytes; heads at cylinder {cylinder}; ready {ready}, write protect {protect}, fault {fault}"
    )?;
    Ok(())
}

// What a string of drives shows.
fn show_string<S: DriveString>(rt: &HostRuntime, what: &str, string: &S) -> anyhow::Result<()> {
    let units = string.units();
    println!(rt; "{what}: {units} units")?;
    for unit in 0..units {
        show_unit(rt, string, unit)?;
    }
    Ok(())
}

// Whether these images would be taken, and where the first that is not goes wrong.
fn show_check(rt: &HostRuntime, what: &str, images: &[&[u8]]) -> anyhow::Result<()> {
    match check_string(images) {
        Ok(()) => println!(rt; "{what}: accepted")?,
        Err(refused) => println!(rt; "{what}: {refused}")?,
    }
    Ok(())
}

// The rack: an image in memory, paired with a write-protected cartridge.
fn show_drives(rt: &HostRuntime, memory: &mut [u8]) -> anyhow::Result<()> {
    let mut rack = Pair {
        first: new_image(memory),
        second: Collar {
            string: new_cartridge(),
        },
    };
    show_string(rt, "The drives", &rack)?;
    rack.set_line(0, Line::Protect, true);
    rack.set_line(1, Line::Protect, false);
    show_string(
        rt,
        "After write protect was set on unit 0 and cleared on unit 1",
        &rack,
    )
}

pub fn show_rack(rt: &HostRuntime) -> anyhow::Result<()> {
    let mut memory = blank_image(rt.alloc(), 4, 2, 8, 256)?;
    let size = memory.len();
    println!(rt;
        "A blank image of 4 cylinders, 2 heads, 8 slots of 256 data bytes takes {size} bytes"
    )?;
    show_check(
        rt,
        "The image and a copy cut short by a byte",
        &[memory.as_slice(), cut_short(memory.as_slice())],
    )?;
    show_drives(rt, memory.as_mut_slice())
}

// The bytes without the last one.
fn cut_short(bytes: &[u8]) -> &[u8] {
    match bytes {
        [front @ .., _] => front,
        [] => bytes,
    }
}
