// A line for two lists, and the tickets that lists are made of.
use reconcile::reconcile;
use std::io;
use ticket::Ticket;

// What comparing two lists hands back; beside a refusal all counts are 0.
pub(crate) fn line(rt: &impl Print, label: &str, bridge: &[u8], desk: &[u8]) -> io::Result<()> {
    match reconcile(bridge, desk) {
        Ok(counts) => println!(rt;
            "{label}: 0 {} {} {} {}",
            counts.alike, counts.differing, counts.only_bridge, counts.only_desk
        ),
        Err(refusal) => println!(rt; "{label}: {} 0 0 0 0", u8::from(refusal)),
    }
}

// Two lists of three tickets.
pub(crate) fn pair(
    rt: &impl Print,
    label: &str,
    bridge: [u8; 33],
    desk: [u8; 33],
) -> io::Result<()> {
    line(rt, label, &bridge, &desk)
}

// The first so many bytes of one list, against the first so many of the same.
pub(crate) fn parts(
    rt: &impl Print,
    label: &str,
    list: &[u8],
    bridge: usize,
    desk: usize,
) -> io::Result<()> {
    if let (Some(a), Some(b)) = (list.get(..bridge), list.get(..desk)) {
        line(rt, label, a, b)?;
    }
    Ok(())
}

// A load that desk 0 tips onto pile 7.
pub(crate) fn load(number: u32, tonnes: u32) -> Ticket {
    Ticket {
        number,
        pile: 7,
        tonnes,
        kind: 1,
        desk: 0,
    }
}

// Writes ticket k of a list, where it has room for it; a ticket with a wrong field leaves the bytes as they are.
pub(crate) fn put(list: &mut [u8], k: usize, ticket: Ticket) {
    if let Some(place) = list.chunks_exact_mut(Ticket::LENGTH).nth(k) {
        ticket.write(place).ok();
    }
}

// Three loads of 30 tonnes.
pub(crate) fn three(a: u32, b: u32, c: u32) -> [u8; 33] {
    let mut list = [0u8; 33];
    put(&mut list, 0, load(a, 30));
    put(&mut list, 1, load(b, 30));
    put(&mut list, 2, load(c, 30));
    list
}
