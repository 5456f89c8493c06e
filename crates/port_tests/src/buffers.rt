// A buffer in a struct of the caller's own.
ghost use Rattle.std.specs.Prelude.{◌≡◌, ◌+◌, ◌%◌, slice_index};
ghost use Rattle.registers.specs.Buffers.{held};

use registers::buffer::Buffer;
use std::test::Fail;

#[derive(Clone, Copy)]
struct Ticket {
    unit: u8,
    buffer: Buffer,
}

fn byte_of(ticket: Ticket, i: u8) -> u8
    ensures { result ≡ slice_index (held ticket.buffer) i }
{
    ticket.buffer.get(i)
}

// A ticket is passed by value, and used again.
fn sum(ticket: Ticket) -> u8
    ensures { result ≡ (slice_index (held ticket.buffer) 0 + slice_index (held ticket.buffer) 1) % 256 }
{
    let a = byte_of(ticket, 0);
    let b = byte_of(ticket, 1);
    a.wrapping_add(b)
}

#[test]
fn a_struct_with_a_buffer_is_copied(rt: HostRuntime) -> Result<(), Fail> {
    let ticket = Ticket {
        unit: 2,
        buffer: Buffer::of(&[3, 4]),
    };
    assert_eq!(rt; sum(ticket), 7);
    assert_eq!(rt; sum(ticket), 7);
    assert_eq!(rt; ticket.unit, 2);
    assert_eq!(rt; ticket.buffer.count(), 2);
    Ok(())
}
