// Weighbridge tickets: the worked one, the first and the last value of each field and what lies outside, and which of two faults is told.
ghost use Rattle.std.specs.Prelude.{◌+◌, ◌≤◌};

use refusal::answer;
use std::io;
use ticket::Ticket;

const BYTES: usize = 11;

// Where its number, pile and tonnes start, and its kind with the desk behind it.
const NUMBER: usize = 0;

const PILE: usize = 4;

const TONNES: usize = 7;

const KIND_AND_DESK: usize = 9;

// Ticket 12345678: desk 0 tips 30 tonnes onto pile 7.
const WORKED: [u8; BYTES] = [
    0x12, 0x34, 0x56, 0x78, 0x00, 0x00, 0x07, 0x00, 0x30, 0x01, 0x00,
];

fn fields(rt: &impl Print, told: u8, t: Ticket) -> io::Result<()> {
    println!(rt;
        " {told} {} {} {} {} {}",
        t.number, t.pile, t.tonnes, t.kind, t.desk
    )
}

// A reading's answer, and the ticket that it hands back; of a refused one all is 0.
fn read(rt: &impl Print, label: &str, bytes: &[u8]) -> io::Result<()> {
    print!(rt; "read {label}:")?;
    match Ticket::read(bytes) {
        Ok(ticket) => fields(rt, 0, ticket),
        Err(refusal) => fields(rt, refusal.into(), ticket_of(0, 0, 0, 0, 0)),
    }
}

// The worked ticket with some of its bytes replaced.
fn read_with<const N: usize>(
    rt: &impl Print,
    label: &str,
    at: usize,
    field: [u8; N],
) -> io::Result<()>
    requires { at + N ≤ BYTES }
{
    let mut bytes = WORKED;
    bytes[at..at + N].copy_from_slice(&field);
    read(rt, label, &bytes)
}

// A writing into the first bytes of a buffer of 13, all ee: its answer, and the whole buffer after it, in hexadecimal.
fn write(rt: &impl Print, label: &str, ticket: Ticket, room: usize) -> io::Result<()> {
    let mut buffer = [0xeeu8; 13];
    if let Some(out) = buffer.get_mut(..room) {
        let told = ticket.write(out);
        print!(rt; "write {label}: {}", answer(told))?;
        for byte in &buffer {
            print!(rt; " {byte:02x}")?;
        }
        println!(rt;)?;
    }
    Ok(())
}

fn ticket_of(number: u32, pile: u32, tonnes: u32, kind: u8, desk: u8) -> Ticket {
    Ticket {
        number,
        pile,
        tonnes,
        kind,
        desk,
    }
}

// Each field at its limits and just outside: digits first, then values.
fn fields_read(rt: &impl Print) -> io::Result<()> {
    read_with(rt, "number 0", NUMBER, [0x00, 0x00, 0x00, 0x00])?;
    read_with(rt, "number 99999999", NUMBER, [0x99, 0x99, 0x99, 0x99])?;
    read_with(
        rt,
        "number, first digit 10",
        NUMBER,
        [0xa0, 0x00, 0x00, 0x00],
    )?;
    read_with(
        rt,
        "number, last digit 10",
        NUMBER,
        [0x12, 0x34, 0x56, 0x7a],
    )?;
    read_with(
        rt,
        "number, last digit 15",
        NUMBER,
        [0x12, 0x34, 0x56, 0x7f],
    )?;
    read_with(rt, "pile, first digit 10", PILE, [0xa0, 0x00, 0x07])?;
    read_with(rt, "pile, last digit 10", PILE, [0x00, 0x00, 0x0a])?;
    read_with(rt, "pile 0", PILE, [0x00, 0x00, 0x00])?;
    read_with(rt, "pile 1", PILE, [0x00, 0x00, 0x01])?;
    read_with(rt, "pile 65535", PILE, [0x06, 0x55, 0x35])?;
    read_with(rt, "pile 65536", PILE, [0x06, 0x55, 0x36])?;
    read_with(rt, "pile 999999", PILE, [0x99, 0x99, 0x99])?;
    read_with(rt, "tonnes, first digit 10", TONNES, [0xa0, 0x30])?;
    read_with(rt, "tonnes, last digit 10", TONNES, [0x00, 0x3a])?;
    read_with(rt, "tonnes 0", TONNES, [0x00, 0x00])?;
    read_with(rt, "tonnes 1", TONNES, [0x00, 0x01])?;
    read_with(rt, "tonnes 1000", TONNES, [0x10, 0x00])?;
    read_with(rt, "tonnes 1001", TONNES, [0x10, 0x01])?;
    read_with(rt, "tonnes 9999", TONNES, [0x99, 0x99])?;
    read_with(rt, "kind 0", KIND_AND_DESK, [0, 0])?;
    read_with(rt, "kind 2", KIND_AND_DESK, [2, 0])?;
    read_with(rt, "kind 3", KIND_AND_DESK, [3, 0])?;
    read_with(rt, "kind 255", KIND_AND_DESK, [255, 0])?;
    read_with(rt, "desk 7", KIND_AND_DESK, [1, 7])?;
    read_with(rt, "desk 8", KIND_AND_DESK, [1, 8])?;
    read_with(rt, "desk 255", KIND_AND_DESK, [1, 255])
}

// Lengths beside 11, of bytes that are wrong otherwise too.
fn lengths_read(rt: &impl Print) -> io::Result<()> {
    let wrong = [0xffu8; 12];
    read(rt, "no bytes", &wrong[0..0])?;
    read(rt, "10 bytes, digits wrong", &wrong[0..10])?;
    read(rt, "12 bytes, digits wrong", &wrong)?;
    read(rt, "10 bytes of the worked ticket", &WORKED[0..10])
}

// Two faults at once: the one that comes first is told. Digits of 15 make a pile and tonnes that are out of range too.
fn two_faults_read(rt: &impl Print) -> io::Result<()> {
    let mut bytes = WORKED;
    bytes[9] = 0;
    bytes[10] = 8;
    read(rt, "kind 0, desk 8", &bytes)?;
    bytes[8] = 0;
    read(rt, "tonnes 0, kind 0", &bytes)?;
    bytes[7] = 0xff;
    bytes[8] = 0xff;
    read(rt, "tonnes all digits 15, kind 0", &bytes)?;
    bytes[6] = 0;
    read(rt, "pile 0, tonnes all digits 15", &bytes)?;
    read_with(rt, "pile all digits 15", PILE, [0xff, 0xff, 0xff])?;
    bytes[3] = 0x7a;
    read(rt, "number, last digit 10, pile 0", &bytes)
}

// What is written at the limits of each field, and what is refused there.
fn fields_written(rt: &impl Print) -> io::Result<()> {
    write(rt, "number 0", ticket_of(0, 7, 30, 1, 0), 11)?;
    write(
        rt,
        "number 99999999",
        ticket_of(99_999_999, 7, 30, 1, 0),
        11,
    )?;
    write(
        rt,
        "number 100000000",
        ticket_of(100_000_000, 7, 30, 1, 0),
        11,
    )?;
    write(
        rt,
        "number 4294967295",
        ticket_of(4_294_967_295, 7, 30, 1, 0),
        11,
    )?;
    write(rt, "pile 0", ticket_of(12345678, 0, 30, 1, 0), 11)?;
    write(rt, "pile 1", ticket_of(12345678, 1, 30, 1, 0), 11)?;
    write(rt, "pile 65535", ticket_of(12345678, 65_535, 30, 1, 0), 11)?;
    write(rt, "pile 65536", ticket_of(12345678, 65_536, 30, 1, 0), 11)?;
    write(
        rt,
        "pile 4294967295",
        ticket_of(12345678, 4_294_967_295, 30, 1, 0),
        11,
    )?;
    write(rt, "tonnes 0", ticket_of(12345678, 7, 0, 1, 0), 11)?;
    write(rt, "tonnes 1", ticket_of(12345678, 7, 1, 1, 0), 11)?;
    write(rt, "tonnes 1000", ticket_of(12345678, 7, 1000, 1, 0), 11)?;
    write(rt, "tonnes 1001", ticket_of(12345678, 7, 1001, 1, 0), 11)?;
    write(
        rt,
        "tonnes 4294967295",
        ticket_of(12345678, 7, 4_294_967_295, 1, 0),
        11,
    )?;
    write(rt, "kind 0", ticket_of(12345678, 7, 30, 0, 0), 11)?;
    write(rt, "kind 2", ticket_of(12345678, 7, 30, 2, 0), 11)?;
    write(rt, "kind 3", ticket_of(12345678, 7, 30, 3, 0), 11)?;
    write(rt, "desk 7", ticket_of(12345678, 7, 30, 1, 7), 11)?;
    write(rt, "desk 8", ticket_of(12345678, 7, 30, 1, 8), 11)
}

fn two_faults_written(rt: &impl Print) -> io::Result<()> {
    write(
        rt,
        "number 100000000, pile 0",
        ticket_of(100_000_000, 0, 30, 1, 0),
        11,
    )?;
    write(rt, "pile 0, tonnes 0", ticket_of(12345678, 0, 0, 1, 0), 11)?;
    write(rt, "tonnes 0, kind 0", ticket_of(12345678, 7, 0, 0, 0), 11)?;
    write(rt, "kind 0, desk 8", ticket_of(12345678, 7, 30, 0, 8), 11)?;
    write(rt, "kind 0, 10 bytes", ticket_of(12345678, 7, 30, 0, 0), 10)?;
    write(rt, "desk 8, no bytes", ticket_of(12345678, 7, 30, 1, 8), 0)?;
    write(rt, "10 bytes", ticket_of(12345678, 7, 30, 1, 0), 10)?;
    write(rt, "no bytes", ticket_of(12345678, 7, 30, 1, 0), 0)
}

pub(crate) fn run(rt: &impl Print) -> io::Result<()> {
    write(
        rt,
        "the worked ticket",
        ticket_of(12345678, 7, 30, 1, 0),
        13,
    )?;
    read(rt, "the worked ticket", &WORKED)?;
    fields_read(rt)?;
    lengths_read(rt)?;
    two_faults_read(rt)?;
    fields_written(rt)?;
    two_faults_written(rt)
}
