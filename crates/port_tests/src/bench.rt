use controller::controller::Controller;
use drives::parts::Line;
use drives::string::DriveString;
use registers::refusal::Refusal;

// A call of the port with the answer that it should give. What is refused gives the refusal's number.
#[derive(Clone, Copy)]
pub(crate) enum Step {
    Command(u8),
    CommandRefused(u8, u8),
    Write(u8),
    WriteRefused(u8, u8),
    Read(u8),
    NoRead,
    Turns(u16),
    TerminalCount,
    TerminalCountRefused(u8),
    Set(u8, Line, bool),
    SetRefused(u8, Line, bool, u8),
    Reset,
    Status(u8),
}

// The refusal where nothing is there to read.
const NOTHING_TO_READ: u8 = 7;

fn is_refused<T: Drop>(answer: Result<T, Refusal>, number: u8) -> bool {
    answer.is_err_and(|refusal| refusal.number() == number)
}

// The two lines are what the status byte says.
fn lines_agree<S: DriveString>(port: &Controller<S>) -> bool {
    let status = port.status();
    port.interrupt() == (status & 0x60 != 0) && port.dma_request() == (status & 1 != 0)
}

fn turns<S: DriveString>(port: &mut Controller<S>, count: u16) -> bool {
    let mut agree = true;
    for _ in 0..count {
        port.turn();
        agree &= lines_agree(port);
    }
    agree
}

// Makes a call, and says whether it gave its answer.
fn agrees<S: DriveString>(port: &mut Controller<S>, step: Step) -> bool {
    match step {
        Step::Command(byte) => port.write_command(byte).is_ok(),
        Step::CommandRefused(byte, number) => is_refused(port.write_command(byte), number),
        Step::Write(byte) => port.write_data(byte).is_ok(),
        Step::WriteRefused(byte, number) => is_refused(port.write_data(byte), number),
        Step::Read(byte) => port.read_data() == Ok(byte),
        Step::NoRead => is_refused(port.read_data(), NOTHING_TO_READ),
        Step::Turns(count) => turns(port, count),
        Step::TerminalCount => port.terminal_count().is_ok(),
        Step::TerminalCountRefused(number) => is_refused(port.terminal_count(), number),
        Step::Set(unit, line, value) => port.set_line(unit, line, value).is_ok(),
        Step::SetRefused(unit, line, value, number) => {
            is_refused(port.set_line(unit, line, value), number)
        }
        Step::Reset => {
            port.reset();
            true
        }
        Step::Status(status) => port.status() == status,
    }
}

// Makes the calls in their order, up to the first that does not give its answer, and tells its place.
pub(crate) fn first_difference<S: DriveString>(
    port: &mut Controller<S>,
    steps: &[Step],
) -> Option<usize> {
    for (i, step) in steps.iter().enumerate() {
        if !agrees(port, *step) || !lines_agree(port) {
            return Some(i);
        }
    }
    None
}

// Writes parameters and a command, all of which are accepted.
pub(crate) fn issue<S: DriveString>(
    port: &mut Controller<S>,
    parameters: &[u8],
    command: u8,
) -> bool {
    let mut fine = true;
    for byte in parameters {
        fine &= port.write_data(*byte).is_ok();
    }
    fine & port.write_command(command).is_ok()
}

// Reads so many results as there should be, and then no byte more.
pub(crate) fn results<S: DriveString>(port: &mut Controller<S>, bytes: &[u8]) -> bool {
    let mut fine = true;
    for byte in bytes {
        fine &= port.read_data() == Ok(*byte);
    }
    fine & is_refused(port.read_data(), NOTHING_TO_READ)
}

// Specify with a data length of 128, the last head 1 and the last sector 3, by x^16+x^12+x^5+1 from FFFF.
pub(crate) fn specify<S: DriveString>(port: &mut Controller<S>) -> bool {
    issue(port, &[0x10, 0xd0, 0x80, 1, 3, 0, 0, 0], 0x20) & (port.status() == 0x40)
}

// Gives so many bytes, each followed by a turn: value, value + 1, ...
pub(crate) fn give<S: DriveString>(port: &mut Controller<S>, value: u8, count: u16) -> bool {
    let mut fine = true;
    let mut byte = value;
    for _ in 0..count {
        fine &= port.write_data(byte).is_ok();
        port.turn();
        fine &= lines_agree(port);
        byte = byte.wrapping_add(1);
    }
    fine
}

// Makes so many turns, each of which brings one byte: value, value + 1, ...
pub(crate) fn take<S: DriveString>(port: &mut Controller<S>, value: u8, count: u16) -> bool {
    let mut fine = true;
    let mut byte = value;
    for _ in 0..count {
        port.turn();
        fine &= lines_agree(port) & (port.read_data() == Ok(byte));
        byte = byte.wrapping_add(1);
    }
    fine
}

// Formats the first so many slots of a track of unit 0: logical cylinder 0, the head's own number, sectors from 0.
pub(crate) fn format<S: DriveString>(port: &mut Controller<S>, head: u8, count: u8) -> bool {
    let mut fine = issue(port, &[head, count, 0xe5, 0, 44], 0x70);
    port.turn();
    for slot in 0..count {
        for byte in [0, 0, head, slot] {
            fine &= (port.status() == 0x81) & port.write_data(byte).is_ok();
        }
        port.turn();
    }
    fine & (port.status() == 0x40) & results(port, &[0x00, 0x00])
}

// Writes one sector of logical cylinder 0 of unit 0, with data bytes value, value + 1, ...
pub(crate) fn write_sector<S: DriveString>(
    port: &mut Controller<S>,
    head: u8,
    sector: u8,
    value: u8,
) -> bool {
    let begun = issue(port, &[head, 0, 0, head, sector, 1], 0xf0);
    port.turn();
    let given = give(port, value, 128);
    port.turn();
    begun & given & (port.status() == 0x40)
}

// Reads one sector of logical cylinder 0 of unit 0, with data bytes value, value + 1, ...
pub(crate) fn read_sector<S: DriveString>(
    port: &mut Controller<S>,
    head: u8,
    sector: u8,
    value: u8,
) -> bool {
    let begun = issue(port, &[head, 0, 0, head, sector, 1], 0xb0);
    port.turn();
    let taken = take(port, value, 128);
    port.turn();
    let waits = port.status() == 0x80;
    port.turn();
    begun & taken & waits & (port.status() == 0x40)
}
