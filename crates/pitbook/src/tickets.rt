// Weighbridge tickets: read into numbers that the caller lends, and written from numbers.
ghost use Rattle.std.specs.Prelude.{◌≡◌};
ghost use Rattle.rules.specs.Refusals.{done};
ghost use Rattle.ticket.specs.Tickets.{as_ticket, ticket_of, read_answer, write_answer, after_write};

use refusal::answer;
use ticket::Ticket;

// Reads a ticket of 11 bytes; refused with 3, 33, 34, 13 or 35. Kind is 1 for a tip and 2 for a draw.
#[tactic(auto, using(refusal::proofs::Refused::number_is_not_0), unfolding(ticket::specs::Tickets::reading, rules::specs::Refusals::done))]
pub fn pit_read_ticket(
    bytes: &[u8],
    number: &mut u32,
    pile: &mut u32,
    tonnes: &mut u32,
    kind: &mut u8,
    desk: &mut u8,
) -> u8
    ensures answer { result ≡ read_answer bytes.now }
    ensures number { number.new ≡ done (read_answer bytes.now) (ticket_of bytes.now).number number.old }
    ensures pile { pile.new ≡ done (read_answer bytes.now) (ticket_of bytes.now).pile pile.old }
    ensures tonnes { tonnes.new ≡ done (read_answer bytes.now) (ticket_of bytes.now).tonnes tonnes.old }
    ensures kind { kind.new ≡ done (read_answer bytes.now) (ticket_of bytes.now).kind kind.old }
    ensures desk { desk.new ≡ done (read_answer bytes.now) (ticket_of bytes.now).desk desk.old }
{
    let read = Ticket::read(bytes);
    if let Ok(ticket) = read {
        *number = ticket.number;
        *pile = ticket.pile;
        *tonnes = ticket.tonnes;
        *kind = ticket.kind;
        *desk = ticket.desk;
    }
    answer(read.map(|_| ()))
}

// Writes a ticket from a lent buffer's start on; refused with 33, 34, 13, 35 or, last, 8. Bytes past the ticket stay.
pub fn pit_write_ticket(
    number: u32,
    pile: u32,
    tonnes: u32,
    kind: u8,
    desk: u8,
    out: &mut [u8],
) -> u8
    ensures answer { result ≡ write_answer (as_ticket number pile tonnes kind desk) out.old }
    ensures out { out.new ≡ after_write (as_ticket number pile tonnes kind desk) out.old }
{
    let ticket = Ticket {
        number,
        pile,
        tonnes,
        kind,
        desk,
    };
    answer(ticket.write(out))
}
