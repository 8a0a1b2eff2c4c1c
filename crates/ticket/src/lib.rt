// Weighbridge tickets: read from any bytes, and written into a lent buffer.
#![tactic(auto)]

mod fields;
mod packed;

ghost use Rattle.std.specs.Prelude.{◌≡◌, ◌≤◌, length};
ghost use Rattle.std.proofs.lemmas.List.Edits.{sets};
ghost use Rattle.ticket.specs.Tickets.{ticket_length, ticket_bytes, as_reading, reading, write_answer, after_write};
ghost use Rattle.refusal.specs.Answers.{answered};

use fields::{desk, kind, number, pile, tonnes};
use packed::{pack, unpack};
use refusal::Refusal;

// A ticket by value: the load's number on the bridge, its pile and tonnes, its kind (1 tip, 2 draw) and its desk. Any values of the types: its kind is a
// number, since `write` has to refuse each that is neither.
#[derive(Clone, Copy, Debug, PartialEq, Eq)]
pub struct Ticket {
    pub number: u32,
    pub pile: u32,
    pub tonnes: u32,
    pub kind: u8,
    pub desk: u8,
}

// The ticket's bytes, from the buffer's start on.
#[tactic(auto, unfolding(crate::specs::Tickets::ticket_bytes, crate::specs::Packed::packed_bytes))]
fn put(out: &mut [u8], ticket: Ticket)
    requires { ticket_length ≤ length out.old }
    ensures { out.new ≡ sets out.old 0 (ticket_bytes ticket) }
{
    pack(&mut out[0..4], ticket.number);
    pack(&mut out[4..7], ticket.pile);
    pack(&mut out[7..9], ticket.tonnes);
    out[9] = ticket.kind;
    out[10] = ticket.desk;
}

impl Ticket {
    pub const LENGTH: usize = 11;

    // Reads a ticket; refused with 3 where there are not 11 bytes, then field by field with 33, 34, 13 or 35.
    #[tactic(auto, using(crate::proofs::Digits::fields_lent, refusal::proofs::Refused::refusals), unfolding(crate::proofs::Opened::open_reading))]
    pub fn read(bytes: &[u8]) -> Result<Ticket, Refusal>
        ensures { as_reading result ≡ reading bytes.now }
    {
        if bytes.len() != Ticket::LENGTH {
            return Err(Refusal::LengthWrong);
        }
        Ok(Ticket {
            number: number(unpack(&bytes[0..4])?)?,
            pile: pile(unpack(&bytes[4..7])?)?,
            tonnes: tonnes(unpack(&bytes[7..9])?)?,
            kind: kind(bytes[9])?,
            desk: desk(bytes[10])?,
        })
    }

    // Writes a ticket from a lent buffer's start on; refused with 33, 34, 13 or 35, and last with 8 where the buffer has no room. Bytes past the ticket stay.
    #[tactic(auto, using(refusal::proofs::Refused::refusals), unfolding(crate::proofs::Opened::open_writing))]
    pub fn write(self, out: &mut [u8]) -> Result<(), Refusal>
        ensures answer { answered result ≡ write_answer self out.old }
        ensures out { out.new ≡ after_write self out.old }
    {
        number(self.number)?;
        pile(self.pile)?;
        tonnes(self.tonnes)?;
        kind(self.kind)?;
        desk(self.desk)?;
        if out.len() < Ticket::LENGTH {
            return Err(Refusal::BufferShort);
        }
        put(out, self);
        Ok(())
    }
}
