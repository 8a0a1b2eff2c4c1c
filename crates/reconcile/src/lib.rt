// The bridge's tickets against the desk's: two lists in lent bytes, walked once together.
#![tactic(auto)]

mod cursor;
mod walk;

ghost use Rattle.std.specs.Prelude.{◌≡◌};
ghost use Rattle.reconcile.specs.Lists.{length_wrong, as_reconciliation, reconciliation};

use cursor::start;
use refusal::Refusal;
use ticket::Ticket;
use walk::{Walk, judge, step};

// The longest list, in tickets.
const LIST_LIMIT: usize = 4_096;

// What comparing two lists tells: the counts of ticket numbers.
#[derive(Clone, Copy, Debug, PartialEq, Eq)]
pub struct Counts {
    pub alike: u32,
    pub differing: u32,
    pub only_bridge: u32,
    pub only_desk: u32,
}

// No multiple of 11, or over 4,096 tickets.
#[tactic(auto, unfolding(crate::specs::Lists::length_wrong, rules::proofs::Cases::Table::open_loops))]
fn length_wrong(list: &[u8]) -> bool
    ensures { result ≡ length_wrong list.now }
{
    list.len() % Ticket::LENGTH != 0 || LIST_LIMIT * Ticket::LENGTH < list.len()
}

// Compares two lists of tickets; refused with 3 for a length, then with each bridge ticket's own refusal and each desk ticket's, then with 36 and 37 where the
// bridge's numbers and the desk's do not rise.
#[tactic(auto, unfolding(crate::specs::Lists::reconcile_answer, crate::specs::Lists::reconciliation, rules::proofs::Cases::Table::open_refusals, rules::proofs::Cases::Table::open_loops))]
pub fn reconcile(bridge: &[u8], desk: &[u8]) -> Result<Counts, Refusal>
    ensures { as_reconciliation result ≡ reconciliation bridge.now desk.now }
{
    if length_wrong(bridge) || length_wrong(desk) {
        return Err(Refusal::LengthWrong);
    }
    let mut walk = Walk {
        bridge: start(bridge),
        desk: start(desk),
        counts: Counts {
            alike: 0,
            differing: 0,
            only_bridge: 0,
            only_desk: 0,
        },
    };
    // A `while`, since a step passes a ticket of one list or of both, and no index counts the steps.
    while !walk.bridge.at_end() || !walk.desk.at_end() {
        walk = step(walk);
    }
    judge(walk.bridge, walk.desk)?;
    Ok(walk.counts)
}
