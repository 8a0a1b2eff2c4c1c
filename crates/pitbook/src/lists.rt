// The bridge's list of tickets against the desk's: four counts, into numbers that the caller lends.
ghost use Rattle.std.specs.Prelude.{◌≡◌};
ghost use Rattle.rules.specs.Refusals.{done};
ghost use Rattle.reconcile.specs.Lists.{reconcile_answer, reconciliation};

use reconcile::reconcile;
use refusal::answer;

// Compares two lists of tickets, each rising by ticket number; refused with 3, 33, 34, 13, 35, 36 or 37.
#[tactic(auto, using(refusal::proofs::Refused::number_is_not_0, reconcile::proofs::Reconciled::answer_told), unfolding(rules::specs::Refusals::done))]
pub fn pit_reconcile(
    bridge: &[u8],
    desk: &[u8],
    alike: &mut u32,
    differing: &mut u32,
    only_bridge: &mut u32,
    only_desk: &mut u32,
) -> u8
    ensures answer { result ≡ reconcile_answer bridge.now desk.now }
    ensures alike { alike.new ≡ done (reconcile_answer bridge.now desk.now) (reconciliation bridge.now desk.now).alike alike.old }
    ensures differing { differing.new ≡ done (reconcile_answer bridge.now desk.now) (reconciliation bridge.now desk.now).differing differing.old }
    ensures only_bridge { only_bridge.new ≡ done (reconcile_answer bridge.now desk.now) (reconciliation bridge.now desk.now).only_bridge only_bridge.old }
    ensures only_desk { only_desk.new ≡ done (reconcile_answer bridge.now desk.now) (reconciliation bridge.now desk.now).only_desk only_desk.old }
{
    let reconciled = reconcile(bridge, desk);
    if let Ok(counts) = reconciled {
        *alike = counts.alike;
        *differing = counts.differing;
        *only_bridge = counts.only_bridge;
        *only_desk = counts.only_desk;
    }
    answer(reconciled.map(|_| ()))
}
