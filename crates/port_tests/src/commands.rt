// Registers and commands that end within the call.
use crate::bench::Step::*;
use crate::bench::{first_difference, issue, results, specify};
use controller::controller::Controller;
use drives::collar::Collar;
use drives::pair::Pair;
use drives::parts::Line;
use images::image::{Cartridge, new_cartridge, new_image};
use std::test::Fail;

fn fresh() -> Controller<Cartridge> {
    Controller::new(new_cartridge())
}

#[test]
fn a_fresh_port_is_idle(rt: HostRuntime) -> Result<(), Fail> {
    let mut port = fresh();
    let steps = [
        Status(0x00),
        NoRead,
        Turns(3),
        Status(0x00),
        TerminalCountRefused(9),
        Reset,
        Status(0x00),
    ];
    assert_eq!(rt; first_difference(&mut port, &steps), None);
    Ok(())
}

#[test]
fn the_buffer_holds_eight(rt: HostRuntime) -> Result<(), Fail> {
    let mut port = fresh();
    assert!(rt; issue_eight(&mut port));
    let steps = [
        WriteRefused(9, 6),
        NoRead,
        Command(0x02),
        Write(1),
        Command(0x00),
        NoRead,
        Status(0x00),
    ];
    assert_eq!(rt; first_difference(&mut port, &steps), None);
    Ok(())
}

fn issue_eight(port: &mut Controller<Cartridge>) -> bool {
    let steps = [
        Write(1),
        Write(2),
        Write(3),
        Write(4),
        Write(5),
        Write(6),
        Write(7),
        Write(8),
    ];
    first_difference(port, &steps).is_none()
}

#[test]
fn auxiliary_bits(rt: HostRuntime) -> Result<(), Fail> {
    let mut port = fresh();
    // an invalid command shows 60 until CLCE; HSRQ alone does nothing
    let steps = [
        Command(0x10),
        Status(0x60),
        Command(0x04),
        Status(0x60),
        Command(0x08),
        Status(0x00),
        Command(0x30),
        Status(0x40),
        Command(0x0a),
        Status(0x00),
        NoRead,
        Command(0x30),
        Command(0x01),
        Status(0x00),
        NoRead,
    ];
    assert_eq!(rt; first_difference(&mut port, &steps), None);
    Ok(())
}

#[test]
fn results_are_no_parameters(rt: HostRuntime) -> Result<(), Fail> {
    let mut port = fresh();
    let steps = [
        Command(0x30),
        Status(0x40),
        Command(0x30),
        Status(0x40),
        Read(0x1e),
        NoRead,
        Command(0x30),
        Write(0x00),
        Write(0x00),
        Command(0x60),
        Status(0x80),
    ];
    assert_eq!(rt; first_difference(&mut port, &steps), None);
    Ok(())
}

// What makes a command invalid: status 60, and nothing to read.
fn is_invalid(parameters: &[u8], command: u8) -> bool {
    let mut port = fresh();
    let taken = specify(&mut port) & issue(&mut port, parameters, command);
    taken & (port.status() == 0x60) & results(&mut port, &[])
}

// The same command is valid.
fn is_valid(parameters: &[u8], command: u8) -> bool {
    let mut port = fresh();
    let taken = specify(&mut port) & issue(&mut port, parameters, command);
    taken & (port.status() & 0x60 != 0x60)
}

#[test]
fn codes_counts_and_values(rt: HostRuntime) -> Result<(), Fail> {
    assert!(rt; is_invalid(&[], 0x10));
    assert!(rt; is_invalid(&[], 0x40));
    assert!(rt; is_invalid(&[], 0x80));
    assert!(rt; is_invalid(&[], 0xa7));
    assert!(rt; is_invalid(&[0, 0, 0, 0, 0, 1], 0xd0));
    assert!(rt; is_invalid(&[0, 0, 0, 0, 0, 1], 0xe8));
    assert!(rt; is_invalid(&[0], 0x30));
    assert!(rt; is_invalid(&[0], 0x50));
    assert!(rt; is_invalid(&[0], 0x60));
    assert!(rt; is_invalid(&[0, 0, 0], 0x60));
    assert!(rt; is_invalid(&[0, 1, 0, 0], 0x70));
    assert!(rt; is_invalid(&[0, 0, 0, 0, 0], 0x70));
    assert!(rt; is_invalid(&[0, 1, 0, 0, 45], 0x70));
    assert!(rt; is_valid(&[0, 1, 0, 0, 44], 0x70));
    assert!(rt; is_invalid(&[0, 0, 0, 0, 0, 0], 0xb0));
    assert!(rt; is_valid(&[0, 0, 0, 0, 0, 1], 0xb9));
    assert!(rt; is_invalid(&[0, 0, 0, 0, 0], 0xc0));
    assert!(rt; is_valid(&[0, 0, 0, 0, 0, 1], 0xc0));
    assert!(rt; is_valid(&[0, 0, 0, 0, 0, 1], 0xff));
    Ok(())
}

#[test]
fn specify_has_bounds(rt: HostRuntime) -> Result<(), Fail> {
    assert!(rt; is_valid(&[0x10, 0x90, 0x80, 0, 0, 0, 0, 0], 0x28));
    assert!(rt; is_valid(&[0x3f, 0xff, 0xff, 0, 0, 0, 0, 0], 0x20));
    assert!(rt; is_invalid(&[0x10, 0x90, 0x7f, 0, 0, 0, 0, 0], 0x20));
    assert!(rt; is_invalid(&[0x90, 0x90, 0x80, 0, 0, 0, 0, 0], 0x20));
    assert!(rt; is_invalid(&[0x50, 0x90, 0x80, 0, 0, 0, 0, 0], 0x20));
    assert!(rt; is_invalid(&[0x00, 0x90, 0x80, 0, 0, 0, 0, 0], 0x20));
    assert!(rt; is_invalid(&[0x10, 0x10, 0x80, 0, 0, 0, 0, 0], 0x20));
    assert!(rt; is_invalid(&[0x10, 0x80, 0x80, 0, 0, 0, 0, 0], 0x20));
    assert!(rt; is_invalid(&[0x10, 0x90, 0x80, 0, 0, 0, 0], 0x20));
    assert!(rt; is_invalid(&[0x10, 0x90, 0x80, 0, 0, 0, 0, 0], 0x21));
    Ok(())
}

#[test]
fn transfers_need_specify(rt: HostRuntime) -> Result<(), Fail> {
    let mut port = fresh();
    assert!(rt; issue(&mut port, &[0, 0, 0, 0, 0, 1], 0xb0));
    assert_eq!(rt; port.status(), 0x60);
    assert!(rt; specify(&mut port));
    // an invalid Specify leaves the earlier one in force; a reset does not
    assert!(rt; issue(&mut port, &[0], 0x20));
    assert_eq!(rt; port.status(), 0x60);
    assert!(rt; issue(&mut port, &[0, 0, 0, 0, 0, 1], 0xb0));
    assert_eq!(rt; port.status(), 0x80);
    port.reset();
    assert!(rt; issue(&mut port, &[0, 0, 0, 0, 0, 1], 0xb0));
    assert_eq!(rt; port.status(), 0x60);
    Ok(())
}

#[test]
fn a_running_command_is_not_disturbed(rt: HostRuntime) -> Result<(), Fail> {
    let mut port = fresh();
    assert!(rt; issue(&mut port, &[0, 1], 0x60));
    let steps = [
        Status(0x80),
        CommandRefused(0x10, 8),
        CommandRefused(0x30, 8),
        CommandRefused(0xff, 8),
        WriteRefused(0, 5),
        NoRead,
        TerminalCountRefused(9),
        Command(0x0e),
        Status(0x80),
        Command(0x0f),
        Status(0x00),
    ];
    assert_eq!(rt; first_difference(&mut port, &steps), None);
    Ok(())
}

#[test]
fn units_and_lines(rt: HostRuntime) -> Result<(), Fail> {
    let mut none: [u8; 4] = [0; 4];
    let mut port = Controller::new(Pair {
        first: new_image(&mut none),
        second: Collar {
            string: new_cartridge(),
        },
    });
    let steps = [
        // over a refused image: there, but not ready
        Command(0x30),
        Read(0x1c),
        Set(0, Line::Ready, true),
        Command(0x30),
        Read(0x1e),
        Set(0, Line::Fault, true),
        Command(0x38),
        Read(0x1f),
        // a collar: protect stays
        Command(0x31),
        Read(0x1e),
        Set(1, Line::Protect, false),
        // missing, and above 3
        Command(0x32),
        Read(0x00),
        Command(0x37),
        Read(0x00),
        SetRefused(2, Line::Ready, true, 10),
        SetRefused(4, Line::Ready, true, 10),
        SetRefused(255, Line::Fault, false, 10),
        Status(0x40),
    ];
    assert_eq!(rt; first_difference(&mut port, &steps), None);
    Ok(())
}
