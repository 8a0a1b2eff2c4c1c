// Numbers copied from one list to another.
ghost use Rattle.std.specs.Prelude.{◌≡◌, length};
ghost use Rattle.padding.specs.Copies.{copy_answer, after_copy};
ghost use Rattle.refusal.specs.Answers.{answered};

use number::runs_past;
use refusal::Refusal;

// Copies count numbers of a list, from a place on, to the places of another from one on; refused with 3 where the first does not have them, and with 8 where
// the other has no room, and then nothing is copied.
#[tactic(auto, using(number::proofs::Parts::back_in_place), unfolding(crate::specs::Copies::copy_answer, crate::specs::Copies::after_copy, rules::proofs::Cases::Table::open_refusals))]
pub fn copy_run(
    out: &mut [u32],
    to: usize,
    numbers: &[u32],
    from: usize,
    count: usize,
) -> Result<(), Refusal>
    ensures answer { answered result ≡ copy_answer to (length out.old) from (length numbers.now) count }
    ensures out { out.new ≡ after_copy to out.old from numbers.now count }
{
    if runs_past(numbers.len(), from, count) {
        return Err(Refusal::LengthWrong);
    }
    if runs_past(out.len(), to, count) {
        return Err(Refusal::BufferShort);
    }
    out[to..to + count].copy_from_slice(&numbers[from..from + count]);
    Ok(())
}
