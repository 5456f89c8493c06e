// Seek and Recalibrate.
use crate::bench::Step::*;
use crate::bench::{first_difference, issue, results};
use controller::controller::Controller;
use drives::parts::Line;
use images::blank::blank_image;
use images::image::{OwnedImage, new_cartridge, new_owned_image};
use std::alloc::Global;
use std::test::Fail;

// A port over an image of so many cylinders.
fn port_of(heap: Global, cylinders: u16) -> Option<Controller<OwnedImage>> {
    match blank_image(heap, cylinders, 1, 1, 128) {
        Ok(bytes) => Some(Controller::new(new_owned_image(bytes))),
        Err(_) => None,
    }
}

#[test]
fn seek_goes_both_ways(rt: HostRuntime) -> Result<(), Fail> {
    let mut port = Controller::new(new_cartridge());
    assert!(rt; issue(&mut port, &[0, 1], 0x60));
    let there = [
        Status(0x80),
        Turns(1),
        Status(0x80),
        Turns(1),
        Status(0x40),
        Read(0x80),
        NoRead,
    ];
    assert_eq!(rt; first_difference(&mut port, &there), None);
    let off_track = [Command(0x30), Read(0x1a)];
    assert_eq!(rt; first_difference(&mut port, &off_track), None);
    assert!(rt; issue(&mut port, &[0, 0], 0x68));
    let back = [
        Turns(2),
        Status(0x40),
        Read(0x80),
        Command(0x30),
        Read(0x1e),
    ];
    assert_eq!(rt; first_difference(&mut port, &back), None);
    Ok(())
}

#[test]
fn seek_past_the_last_cylinder(rt: HostRuntime) -> Result<(), Fail> {
    let mut port = Controller::new(new_cartridge());
    // PCN goes to 5, the heads to 1
    assert!(rt; issue(&mut port, &[0, 5], 0x60));
    let there = [Turns(5), Status(0x80), Turns(1), Status(0x40), Read(0x80)];
    assert_eq!(rt; first_difference(&mut port, &there), None);
    assert!(rt; issue(&mut port, &[0, 4], 0x60));
    // one pulse outward, and the heads are at 0
    let back = [Turns(2), Read(0x80), Command(0x30), Read(0x1e)];
    assert_eq!(rt; first_difference(&mut port, &back), None);
    assert!(rt; issue(&mut port, &[0x01, 0x02], 0x60));
    let far = [Turns(254), Status(0x80), Turns(1), Status(0x40), Read(0x80)];
    assert_eq!(rt; first_difference(&mut port, &far), None);
    Ok(())
}

#[test]
fn not_ready_on_the_way(rt: HostRuntime) -> Result<(), Fail> {
    let mut port = Controller::new(new_cartridge());
    assert!(rt; issue(&mut port, &[0, 9], 0x60));
    let steps = [
        Turns(3),
        Set(0, Line::Fault, true),
        Turns(1),
        Status(0x80),
        Set(0, Line::Ready, false),
        Status(0x80),
        Turns(1),
        Status(0x20),
        Read(0x28),
        NoRead,
    ];
    assert_eq!(rt; first_difference(&mut port, &steps), None);
    Ok(())
}

#[test]
fn missing_units_are_not_ready(rt: HostRuntime) -> Result<(), Fail> {
    let mut port = Controller::new(new_cartridge());
    let steps = [
        Command(0x51),
        Status(0x80),
        Turns(1),
        Status(0x20),
        Read(0x29),
        Command(0x5f),
        Turns(1),
        Read(0x2f),
    ];
    assert_eq!(rt; first_difference(&mut port, &steps), None);
    Ok(())
}

#[test]
fn recalibrate_from_1023(rt: HostRuntime) -> Result<(), Fail> {
    let mut port = port_of(rt.alloc(), 1100).ok_or("no image")?;
    assert!(rt; issue(&mut port, &[0x03, 0xff], 0x60));
    let there = [
        Turns(1023),
        Status(0x80),
        Turns(1),
        Status(0x40),
        Read(0x80),
    ];
    assert_eq!(rt; first_difference(&mut port, &there), None);
    let back = [
        Command(0x50),
        Turns(1023),
        Status(0x80),
        Turns(1),
        Status(0x40),
        Read(0x80),
        Command(0x30),
        Read(0x1e),
    ];
    assert_eq!(rt; first_difference(&mut port, &back), None);
    Ok(())
}

#[test]
fn recalibrate_from_1024(rt: HostRuntime) -> Result<(), Fail> {
    let mut port = port_of(rt.alloc(), 1100).ok_or("no image")?;
    assert!(rt; issue(&mut port, &[0x04, 0x00], 0x60));
    let there = [Turns(1025), Status(0x40), Read(0x80)];
    assert_eq!(rt; first_difference(&mut port, &there), None);
    let back = [
        Command(0x58),
        Turns(1023),
        Status(0x80),
        Turns(1),
        Status(0x20),
        Read(0x30),
        // it stands at cylinder 1, and PCN is 0: one pulse more and it is home
        Command(0x30),
        Read(0x1a),
        Command(0x50),
        Turns(2),
        Status(0x40),
        Read(0x80),
        Command(0x30),
        Read(0x1e),
    ];
    assert_eq!(rt; first_difference(&mut port, &back), None);
    // PCN was set to 0 when Recalibrate was accepted
    assert!(rt; issue(&mut port, &[0, 0], 0x60));
    port.turn();
    assert!(rt; results(&mut port, &[0x80]));
    Ok(())
}
