// Format and Write Data.
use crate::bench::Step::*;
use crate::bench::{
    first_difference, format, give, issue, read_sector, results, specify, write_sector,
};
use controller::controller::Controller;
use drives::collar::Collar;
use drives::numbers::{PhysicalHead, Slot};
use drives::parts::{Line, Part, Place};
use drives::string::DriveString;
use images::image::{Cartridge, new_cartridge};
use std::test::Fail;

fn fresh() -> Controller<Cartridge> {
    Controller::new(new_cartridge())
}

fn place(head: u8, slot: u8) -> Place {
    Place {
        unit: 0,
        head: PhysicalHead(head),
        slot: Slot(slot),
    }
}

#[test]
fn format_writes_ids_fields_and_checks(rt: HostRuntime) -> Result<(), Fail> {
    let mut port = fresh();
    assert!(rt; specify(&mut port));
    assert!(rt; format(&mut port, 1, 4));
    let string = port.end();
    let at = place(1, 2);
    assert!(rt; string.mark(at, Part::Id) & string.mark(at, Part::Data));
    assert_eq!(rt; string.byte(at, Part::Id, 2), 1);
    assert_eq!(rt; string.byte(at, Part::Id, 3), 2);
    // the check of 00 00 01 02 by x^16+x^12+x^5+1 from FFFF, as a long division elsewhere gives it
    assert_eq!(rt; string.byte(at, Part::Id, 4), 0x97);
    assert_eq!(rt; string.byte(at, Part::Id, 5), 0xb3);
    assert_eq!(rt; string.byte(at, Part::Data, 0), 0xe5);
    assert_eq!(rt; string.byte(at, Part::Data, 127), 0xe5);
    // past the check nothing is touched, nor is the other head
    assert_eq!(rt; string.byte(at, Part::Data, 130), 0);
    assert!(rt; !string.mark(place(0, 2), Part::Id));
    Ok(())
}

#[test]
fn format_stops_at_the_last_slot_and_at_want_of_bytes(rt: HostRuntime) -> Result<(), Fail> {
    let mut port = fresh();
    assert!(rt; specify(&mut port));
    assert!(rt; issue(&mut port, &[0, 6, 0, 0, 0], 0x70));
    let opened = [Status(0x81), Turns(1), Status(0x81)];
    assert_eq!(rt; first_difference(&mut port, &opened), None);
    for slot in 0u8..4 {
        let numbers = [Write(0), Write(0), Write(0), Write(slot), Turns(1)];
        assert_eq!(rt; first_difference(&mut port, &numbers), None);
    }
    // a slot beyond the last is ENC, before it is seen that there are no bytes
    let beyond = [
        Status(0x81),
        Turns(1),
        Status(0x20),
        Read(0x80),
        Read(0x02),
        NoRead,
    ];
    assert_eq!(rt; first_difference(&mut port, &beyond), None);
    assert!(rt; issue(&mut port, &[0, 2, 0, 0, 0], 0x70));
    let short = [
        Turns(1),
        Write(0),
        Write(0),
        Write(0),
        Turns(1),
        Status(0x20),
        Read(0x40),
        Read(0x02),
        NoRead,
    ];
    assert_eq!(rt; first_difference(&mut port, &short), None);
    Ok(())
}

#[test]
fn format_wants_four_bytes_a_slot(rt: HostRuntime) -> Result<(), Fail> {
    let mut port = fresh();
    assert!(rt; specify(&mut port));
    assert!(rt; issue(&mut port, &[0, 2, 0, 0, 0], 0x70));
    let steps = [
        Write(0),
        Write(0),
        Write(0),
        Write(0),
        Write(0),
        Status(0x81),
        Write(0),
        Status(0x80),
        Write(0),
        Write(1),
        // all are given, and eight are held: 5 comes before 6
        WriteRefused(1, 5),
        TerminalCountRefused(9),
        NoRead,
        Turns(3),
        Status(0x40),
    ];
    assert_eq!(rt; first_difference(&mut port, &steps), None);
    Ok(())
}

#[test]
fn what_is_written_is_read_back(rt: HostRuntime) -> Result<(), Fail> {
    let mut port = fresh();
    assert!(rt; specify(&mut port));
    assert!(rt; format(&mut port, 0, 4));
    assert!(rt; write_sector(&mut port, 0, 2, 7));
    // LSN 3 is next
    assert!(rt; results(&mut port, &[0, 0, 0, 0, 0, 3, 0]));
    assert!(rt; read_sector(&mut port, 0, 2, 7));
    assert!(rt; results(&mut port, &[0, 0, 0, 0, 0, 3, 0]));
    // its neighbours hold the pattern still
    assert!(rt; issue(&mut port, &[0, 0, 0, 0, 1, 1], 0xc0));
    let checked = [Turns(129), Status(0x80), Turns(1), Status(0x40)];
    assert_eq!(rt; first_difference(&mut port, &checked), None);
    Ok(())
}

#[test]
fn one_write_goes_over_two_heads(rt: HostRuntime) -> Result<(), Fail> {
    let mut port = fresh();
    assert!(rt; specify(&mut port));
    assert!(rt; format(&mut port, 0, 4));
    assert!(rt; format(&mut port, 1, 4));
    assert!(rt; issue(&mut port, &[0, 0, 0, 0, 3, 2], 0xf0));
    port.turn();
    assert!(rt; give(&mut port, 1, 128));
    let between = [
        Status(0x80),
        WriteRefused(0, 5),
        Turns(1),
        Status(0x81),
        Turns(1),
    ];
    assert_eq!(rt; first_difference(&mut port, &between), None);
    assert!(rt; give(&mut port, 2, 128));
    port.turn();
    assert_eq!(rt; port.status(), 0x40);
    assert!(rt; results(&mut port, &[0, 1, 0, 0, 1, 1, 0]));
    assert!(rt; read_sector(&mut port, 0, 3, 1));
    assert!(rt; read_sector(&mut port, 1, 0, 2));
    Ok(())
}

#[test]
fn the_end_of_the_cylinder(rt: HostRuntime) -> Result<(), Fail> {
    let mut port = fresh();
    assert!(rt; specify(&mut port));
    assert!(rt; format(&mut port, 1, 4));
    // the last sector, and one more asked for
    assert!(rt; issue(&mut port, &[1, 0, 0, 1, 3, 2], 0xf0));
    port.turn();
    assert!(rt; give(&mut port, 9, 128));
    let ended = [Turns(1), Status(0x20)];
    assert_eq!(rt; first_difference(&mut port, &ended), None);
    assert!(rt; results(&mut port, &[0x80, 1, 0, 0, 1, 3, 1]));
    // it was closed all the same
    assert!(rt; read_sector(&mut port, 1, 3, 9));
    // the count is just used up: a normal end, on the next cylinder
    assert!(rt; results(&mut port, &[0x00, 0, 0, 1, 0, 0, 0]));
    Ok(())
}

#[test]
fn want_of_bytes_leaves_the_sector_open(rt: HostRuntime) -> Result<(), Fail> {
    let mut port = fresh();
    assert!(rt; specify(&mut port));
    assert!(rt; format(&mut port, 0, 4));
    assert!(rt; issue(&mut port, &[0, 0, 0, 0, 1, 1], 0xf0));
    port.turn();
    assert!(rt; give(&mut port, 0, 10));
    let overrun = [Turns(1), Status(0x20)];
    assert_eq!(rt; first_difference(&mut port, &overrun), None);
    assert!(rt; results(&mut port, &[0x40, 0, 0, 0, 0, 1, 1]));
    assert!(rt; issue(&mut port, &[0, 0, 0, 0, 1, 1], 0xb0));
    let missing = [Turns(1), Status(0x80), Turns(1), Status(0x20)];
    assert_eq!(rt; first_difference(&mut port, &missing), None);
    assert!(rt; results(&mut port, &[0x01, 0, 0, 0, 0, 1, 1]));
    Ok(())
}

#[test]
fn terminal_count_fills_with_zeros(rt: HostRuntime) -> Result<(), Fail> {
    let mut port = fresh();
    assert!(rt; specify(&mut port));
    assert!(rt; format(&mut port, 0, 4));
    assert!(rt; issue(&mut port, &[0, 0, 0, 0, 0, 1], 0xf0));
    let steps = [
        Turns(1),
        Write(0x11),
        Write(0x22),
        TerminalCount,
        Status(0x80),
        WriteRefused(0x33, 5),
        TerminalCount,
        Turns(128),
        Status(0x80),
        Turns(1),
        Status(0x40),
    ];
    assert_eq!(rt; first_difference(&mut port, &steps), None);
    let string = port.end();
    assert_eq!(rt; string.byte(place(0, 0), Part::Data, 1), 0x22);
    assert_eq!(rt; string.byte(place(0, 0), Part::Data, 2), 0x00);
    assert_eq!(rt; string.byte(place(0, 0), Part::Data, 127), 0x00);
    assert!(rt; string.mark(place(0, 0), Part::Data));
    Ok(())
}

#[test]
fn protect_and_lines(rt: HostRuntime) -> Result<(), Fail> {
    let mut port = fresh();
    assert!(rt; specify(&mut port));
    assert!(rt; format(&mut port, 0, 4));
    let protected = [Set(0, Line::Protect, true)];
    assert_eq!(rt; first_difference(&mut port, &protected), None);
    assert!(rt; issue(&mut port, &[0, 0, 0, 0, 0, 1], 0xf0));
    let refused = [Status(0x81), Turns(1), Status(0x20)];
    assert_eq!(rt; first_difference(&mut port, &refused), None);
    assert!(rt; results(&mut port, &[0x02, 0, 0, 0, 0, 0, 1]));
    assert!(rt; issue(&mut port, &[0, 1, 0, 0, 0], 0x70));
    let unformatted = [Turns(1), Status(0x20), Read(0x02), Read(0x01), NoRead];
    assert_eq!(rt; first_difference(&mut port, &unformatted), None);
    // protect is looked at in the first turn only; a fault in mid-sector ends the command
    let free = [Set(0, Line::Protect, false)];
    assert_eq!(rt; first_difference(&mut port, &free), None);
    assert!(rt; issue(&mut port, &[0, 0, 0, 0, 0, 1], 0xf0));
    let late = [
        Turns(1),
        Set(0, Line::Protect, true),
        Write(1),
        Turns(1),
        Status(0x81),
        Set(0, Line::Fault, true),
        Turns(1),
        Status(0x20),
    ];
    assert_eq!(rt; first_difference(&mut port, &late), None);
    assert!(rt; results(&mut port, &[0x10, 0, 0, 0, 0, 0, 1]));
    Ok(())
}

#[test]
fn a_collar_lets_nothing_be_written(rt: HostRuntime) -> Result<(), Fail> {
    let mut port = Controller::new(Collar {
        string: new_cartridge(),
    });
    assert!(rt; specify(&mut port));
    assert!(rt; issue(&mut port, &[0, 1, 0, 0, 0], 0x70));
    let steps = [Turns(1), Status(0x20), Read(0x02), Read(0x01)];
    assert_eq!(rt; first_difference(&mut port, &steps), None);
    Ok(())
}

#[test]
fn a_head_that_is_not_there_and_a_length_too_long(rt: HostRuntime) -> Result<(), Fail> {
    let mut port = fresh();
    assert!(rt; specify(&mut port));
    assert!(rt; issue(&mut port, &[2, 1, 0, 0, 0], 0x70));
    let no_head = [Turns(1), Status(0x20), Read(0x10), Read(0x01)];
    assert_eq!(rt; first_difference(&mut port, &no_head), None);
    assert!(rt; issue(&mut port, &[0x10, 0x90, 0x81, 1, 3, 0, 0, 0], 0x20));
    assert!(rt; issue(&mut port, &[0, 0, 0, 0, 0, 1], 0xf0));
    let too_long = [Turns(1), Status(0x20), Read(0x10)];
    assert_eq!(rt; first_difference(&mut port, &too_long), None);
    Ok(())
}
