// Read Data and Check.
use crate::bench::Step::*;
use crate::bench::{first_difference, format, issue, results, specify, take, write_sector};
use controller::controller::Controller;
use drives::numbers::{PhysicalHead, Slot};
use drives::parts::{Line, Part, Place};
use drives::string::DriveString;
use images::image::{Cartridge, new_cartridge};
use std::test::Fail;

// A port over a cartridge whose first track is formatted, with sectors 0 and 1 written.
fn written() -> Option<Controller<Cartridge>> {
    let mut port = Controller::new(new_cartridge());
    let fine = specify(&mut port)
        & format(&mut port, 0, 4)
        & write_sector(&mut port, 0, 0, 0x40)
        & write_sector(&mut port, 0, 1, 0x80);
    if fine { Some(port) } else { None }
}

#[test]
fn the_data_request_of_a_read(rt: HostRuntime) -> Result<(), Fail> {
    let mut port = written().ok_or("not written")?;
    assert!(rt; issue(&mut port, &[0, 0, 0, 0, 0, 2], 0xb0));
    let steps = [
        Turns(1),
        Status(0x80),
        NoRead,
        Turns(2),
        Status(0x80),
        Turns(1),
        Status(0x81),
        WriteRefused(0, 5),
        Read(0x40),
        Status(0x80),
        Read(0x41),
        Read(0x42),
        NoRead,
    ];
    assert_eq!(rt; first_difference(&mut port, &steps), None);
    assert!(rt; take(&mut port, 0x43, 124));
    // the last byte asks alone, until the next sector's first byte turn
    let last = [
        Turns(1),
        Status(0x81),
        Turns(1),
        Status(0x81),
        Turns(1),
        Status(0x81),
        Turns(1),
        Status(0x80),
        Read(0xbf),
        Read(0x80),
        NoRead,
    ];
    assert_eq!(rt; first_difference(&mut port, &last), None);
    Ok(())
}

#[test]
fn a_full_buffer_is_an_overrun(rt: HostRuntime) -> Result<(), Fail> {
    let mut port = written().ok_or("not written")?;
    assert!(rt; issue(&mut port, &[0, 0, 0, 0, 0, 1], 0xb0));
    let steps = [Turns(9), Status(0x81), Turns(1), Status(0x20)];
    assert_eq!(rt; first_difference(&mut port, &steps), None);
    assert!(rt; results(&mut port, &[0x40, 0, 0, 0, 0, 0, 1]));
    Ok(())
}

#[test]
fn the_end_waits_for_the_host(rt: HostRuntime) -> Result<(), Fail> {
    let mut port = written().ok_or("not written")?;
    assert!(rt; issue(&mut port, &[0, 0, 0, 0, 0, 1], 0xb0));
    port.turn();
    assert!(rt; take(&mut port, 0x40, 127));
    let waiting = [
        Turns(2),
        Status(0x81),
        Turns(5),
        Status(0x81),
        Read(0xbf),
        Status(0x80),
        Turns(1),
        Status(0x40),
    ];
    assert_eq!(rt; first_difference(&mut port, &waiting), None);
    assert!(rt; results(&mut port, &[0, 0, 0, 0, 0, 1, 0]));
    // not ready found meanwhile replaces it, with the numbers as they stand
    assert!(rt; issue(&mut port, &[0, 0, 0, 0, 0, 1], 0xb0));
    port.turn();
    assert!(rt; take(&mut port, 0x40, 127));
    let replaced = [Turns(2), Set(0, Line::Ready, false), Turns(1), Status(0x20)];
    assert_eq!(rt; first_difference(&mut port, &replaced), None);
    assert!(rt; results(&mut port, &[0x08, 0, 0, 0, 0, 1, 0]));
    Ok(())
}

#[test]
fn terminal_count_hides_the_rest(rt: HostRuntime) -> Result<(), Fail> {
    let mut port = written().ok_or("not written")?;
    assert!(rt; issue(&mut port, &[0, 0, 0, 0, 0, 2], 0xb0));
    let cut = [
        Turns(4),
        Read(0x40),
        TerminalCount,
        NoRead,
        Turns(125),
        Status(0x80),
        NoRead,
        // the check turn, the next search, and bytes again
        Turns(2),
        Turns(1),
        Read(0x80),
        Turns(2),
        Read(0x81),
    ];
    assert_eq!(rt; first_difference(&mut port, &cut), None);
    // before the search turn it hides all of the sector
    let mut other = written().ok_or("not written")?;
    assert!(rt; issue(&mut other, &[0, 0, 0, 0, 0, 1], 0xb0));
    let hidden = [
        TerminalCount,
        Turns(130),
        Status(0x80),
        NoRead,
        Turns(1),
        Status(0x40),
    ];
    assert_eq!(rt; first_difference(&mut other, &hidden), None);
    Ok(())
}

#[test]
fn searches_that_fail(rt: HostRuntime) -> Result<(), Fail> {
    let mut port = written().ok_or("not written")?;
    // no such sector
    assert!(rt; issue(&mut port, &[0, 0, 0, 0, 7, 1], 0xc0));
    let no_data = [Turns(1), Status(0x20)];
    assert_eq!(rt; first_difference(&mut port, &no_data), None);
    assert!(rt; results(&mut port, &[0x04, 0, 0, 0, 0, 7, 1]));
    // a track without an ID mark: reset request, and an error byte of 00
    assert!(rt; issue(&mut port, &[1, 0, 0, 1, 0, 1], 0xc0));
    let no_ids = [Turns(1), Status(0x28)];
    assert_eq!(rt; first_difference(&mut port, &no_ids), None);
    assert!(rt; results(&mut port, &[0x00, 1, 0, 0, 1, 0, 1]));
    // CLCE leaves it, the next command clears it; Read Data's end comes a turn later
    assert!(rt; issue(&mut port, &[], 0x08));
    assert_eq!(rt; port.status(), 0x08);
    assert!(rt; issue(&mut port, &[1, 0, 0, 1, 0, 1], 0xb0));
    let later = [Status(0x80), Turns(1), Status(0x80), Turns(1), Status(0x28)];
    assert_eq!(rt; first_difference(&mut port, &later), None);
    Ok(())
}

fn place(slot: u8) -> Place {
    Place {
        unit: 0,
        head: PhysicalHead(0),
        slot: Slot(slot),
    }
}

#[test]
fn a_scratched_id_and_a_changed_byte(rt: HostRuntime) -> Result<(), Fail> {
    let port = written().ok_or("not written")?;
    let mut string = port.end();
    string.set_byte(place(0), Part::Id, 5, 0x00);
    string.set_byte(place(1), Part::Data, 100, 0x00);
    let mut port = Controller::new(string);
    assert!(rt; specify(&mut port));
    assert!(rt; issue(&mut port, &[0, 0, 0, 0, 0, 1], 0xc0));
    let scratched = [Turns(1), Status(0x24)];
    assert_eq!(rt; first_difference(&mut port, &scratched), None);
    assert!(rt; results(&mut port, &[0x04, 0, 0, 0, 0, 0, 1]));
    assert!(rt; issue(&mut port, &[0, 0, 0, 0, 1, 2], 0xc0));
    let damaged = [Turns(129), Status(0x80), Turns(1), Status(0x20)];
    assert_eq!(rt; first_difference(&mut port, &damaged), None);
    // no number moves, and the count does not either
    assert!(rt; results(&mut port, &[0x20, 0, 0, 0, 0, 1, 2]));
    Ok(())
}

#[test]
fn a_check_takes_no_bytes(rt: HostRuntime) -> Result<(), Fail> {
    let mut port = written().ok_or("not written")?;
    assert!(rt; issue(&mut port, &[0, 0, 0, 0, 0, 4], 0xc0));
    let steps = [
        WriteRefused(0, 5),
        NoRead,
        TerminalCountRefused(9),
        Turns(519),
        Status(0x80),
        Turns(1),
        Status(0x40),
    ];
    assert_eq!(rt; first_difference(&mut port, &steps), None);
    assert!(rt; results(&mut port, &[0, 1, 0, 0, 1, 0, 0]));
    Ok(())
}
