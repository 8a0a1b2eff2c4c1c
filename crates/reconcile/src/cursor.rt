// A list of tickets on its way through: the list, where the walk is in it, and what it has found so far.
ghost use Rattle.std.specs.Prelude.{◌≡◌, ◌/◌, ◌%◌, length};
ghost use Rattle.ticket.specs.Tickets.{ticket_length, as_reading};
ghost use Rattle.reconcile.specs.Inner.{read_at, as_place, place_at};

use refusal::Refusal;
use ticket::Ticket;

#[derive(Clone, Copy)]
pub(crate) struct Cursor<'a> {
    pub(crate) list: &'a [u8],
    // where the head starts
    pub(crate) at: usize,
    // the first refusal among the tickets up to the head
    pub(crate) answer: Result<(), Refusal>,
    // do the numbers rise up to the head?
    pub(crate) rises: bool,
    // the ticket that the walk stands at
    pub(crate) head: Ticket,
}

// Stands where a ticket is refused. It and the end are tickets and no `None`, since the walk orders both lists by the numbers that they stand at.
const NO_TICKET: Ticket = Ticket {
    number: 0,
    pile: 0,
    tonnes: 0,
    kind: 0,
    desk: 0,
};

// Stands behind the last ticket: every ticket's number is below it.
const END: Ticket = Ticket {
    number: 100_000_000,
    pile: 0,
    tonnes: 0,
    kind: 0,
    desk: 0,
};

// Reads the ticket at a position, or behind the last ticket the end.
#[tactic(auto, using(crate::proofs::Readings::read_inside, crate::proofs::Readings::read_end))]
fn read_at(list: &[u8], at: usize) -> Result<Ticket, Refusal>
    requires { (at % ticket_length ≡ 0) × (length list.now % ticket_length ≡ 0) }
    ensures { as_reading result ≡ read_at list.now (at / ticket_length) }
{
    if at < list.len() {
        Ticket::read(&list[at..at + Ticket::LENGTH])
    } else {
        Ok(END)
    }
}

// The cursor at the first ticket.
#[tactic(auto, using(crate::proofs::Cursors::started))]
pub(crate) fn start(list: &[u8]) -> Cursor<'_>
    requires { length list.now % ticket_length ≡ 0 }
    ensures { as_place result ≡ place_at list.now 0 }
{
    let first = read_at(list, 0);
    Cursor {
        list,
        at: 0,
        answer: first.and(Ok(())),
        rises: true,
        head: first.unwrap_or(NO_TICKET),
    }
}

impl<'a> Cursor<'a> {
    ghost use Rattle.std.specs.Prelude.{◌≡◌, ◌+◌, ◌/◌, ◌<◌, not, length, ltb};
    ghost use Rattle.ticket.specs.Tickets.{ticket_length};
    ghost use Rattle.reconcile.specs.Inner.{as_place, place_at, Standing};

    // Are all tickets passed?
    pub(crate) fn at_end(self) -> bool
        ensures { result ≡ not (ltb self.entry.at (length self.entry.list.now)) }
    {
        self.list.len() <= self.at
    }

    // Past the head, which is a ticket and not the end. The end is above every number, so that rising to it tells nothing.
    #[tactic(auto, using(crate::proofs::Cursors::next_position, crate::proofs::Cursors::advanced), unfolding(rules::proofs::Cases::Table::open_loops))]
    pub(crate) fn advance(self) -> Cursor<'a>
        requires { Standing self.list.now self × (self.at < length self.list.now) }
        ensures { as_place result ≡ place_at self.entry.list.now (self.entry.at / ticket_length + 1) }
    {
        let at = self.at + Ticket::LENGTH;
        let next = read_at(self.list, at);
        let head = next.unwrap_or(NO_TICKET);
        Cursor {
            list: self.list,
            at,
            answer: self.answer.and(next).and(Ok(())),
            rises: self.rises && self.head.number < head.number,
            head,
        }
    }
}
