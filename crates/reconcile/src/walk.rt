// One walk over both lists together: at each step the smallest number that either list stands at is counted, and passed in every list that has it.
ghost use Rattle.std.specs.Prelude.{◌≡◌, not, ◌+◌, ◌<◌, length};
ghost use Rattle.rules.specs.Refusals.{◌when◌, ◌or_else◌};
ghost use Rattle.refusal.specs.Answers.{answered};
ghost use Rattle.reconcile.specs.Inner.{Walked};

use crate::Counts;
use crate::cursor::Cursor;
use refusal::Refusal;
use std::cmp::Ordering;

#[derive(Clone, Copy)]
pub(crate) struct Walk<'a> {
    pub(crate) bridge: Cursor<'a>,
    pub(crate) desk: Cursor<'a>,
    pub(crate) counts: Counts,
}

// The end of a list is above every number, so that the rest of the other list goes the same way. A refused ticket stands there as number 0 and is passed at
// once: its list is walked to the end all the same, since what comes first is told only there, and the counts are then not handed back.
pub(crate) fn step(walk: Walk<'_>) -> Walk<'_>
    requires walked_so_far { Walked walk.bridge.list.now walk.desk.list.now walk }
    requires some_left { walk.bridge.at + walk.desk.at < length walk.bridge.list.now + length walk.desk.list.now }
    ensures walked { Walked walk.entry.bridge.list.now walk.entry.desk.list.now result }
    ensures further { walk.entry.bridge.at + walk.entry.desk.at < result.bridge.at + result.desk.at }
{
    let mut next = walk;
    match walk.bridge.head.number.cmp(&walk.desk.head.number) {
        Ordering::Less => {
            next.bridge = walk.bridge.advance();
            next.counts.only_bridge += 1;
        }
        Ordering::Greater => {
            next.desk = walk.desk.advance();
            next.counts.only_desk += 1;
        }
        Ordering::Equal => {
            next.bridge = walk.bridge.advance();
            next.desk = walk.desk.advance();
            if walk.bridge.head == walk.desk.head {
                next.counts.alike += 1;
            } else {
                next.counts.differing += 1;
            }
        }
    }
    next
}

// What is wrong with the lists that were walked: the tickets' own refusals, the bridge's first, and then numbers that do not rise.
#[tactic(auto, using(refusal::proofs::Refused::refusals), unfolding(rules::proofs::Cases::Table::open_refusals))]
pub(crate) fn judge(bridge: Cursor<'_>, desk: Cursor<'_>) -> Result<(), Refusal>
    ensures { answered result ≡ answered bridge.entry.answer or_else answered desk.entry.answer or_else 36 when not bridge.entry.rises or_else 37 when not desk.entry.rises }
{
    bridge.answer?;
    desk.answer?;
    if !bridge.rises {
        return Err(Refusal::BridgeNotRising);
    }
    if !desk.rises {
        return Err(Refusal::DeskNotRising);
    }
    Ok(())
}
