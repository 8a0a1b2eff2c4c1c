// The first refusal of an opening.
ghost use Rattle.std.specs.Prelude.{◌≡◌, not, IfOk};
ghost use Rattle.rules.specs.Refusals.{◌when◌, first};
ghost use Rattle.rules.specs.Pile.{opening_lawful};
ghost use Rattle.rules.specs.Opening.{rising, opening_answer};
ghost use Rattle.opening.specs.Inner.{number_in, pile_in, IsGiven};
ghost use Rattle.refusal.specs.Answers.{answered};

use crate::given::{Given, pile_size};
use layout::head::{book_length, sizes_in_range};
use layout::limits::LAST_NUMBER;
use refusal::Refusal;

// Do the pile numbers rise from above 0, none above the highest?
#[tactic(auto, using(rules::proofs::File::Risen::not_risen))]
fn numbers_rise(given: &Given) -> bool
    ensures { result ≡ rising given.now.piles (number_in given.now) }
{
    let mut last: u32 = 0;
    for k in 0..given.piles {
        let number = given.pile(k).number();
        if number <= last || LAST_NUMBER < number {
            return false;
        }
        last = number;
    }
    true
}

// 5 where the opening of a pile is unlawful.
fn openings_answer(given: &Given) -> Result<(), Refusal>
    ensures { answered result ≡ first given.now.piles (λ k. 5 when not (opening_lawful given.now.desks (pile_in given.now k))) }
{
    for k in 0..given.piles {
        given.pile(k).record()?;
    }
    Ok(())
}

// The list, where no line of the table refuses its opening. They are asked in their order.
#[tactic(auto, using(refusal::proofs::Refused::refusals), unfolding(rules::specs::Opening::opening_answer, rules::specs::Opening::buffer_length, rules::proofs::Cases::Table::open_refusals))]
pub(crate) fn accepted<'a>(
    n: u8,
    p: u8,
    numbers: &'a [u32],
    room: usize,
) -> Result<Given<'a>, Refusal>
    ensures answer { answered result ≡ opening_answer n p numbers.now room }
    ensures given { IfOk result (λ given. IsGiven given n p numbers.now) }
{
    if !sizes_in_range(n, p) {
        return Err(Refusal::HeadWrong);
    }
    if numbers.len() != usize::from(p) * pile_size(n) {
        return Err(Refusal::LengthWrong);
    }
    let given = Given {
        numbers,
        desks: n,
        piles: p,
    };
    if !numbers_rise(&given) {
        return Err(Refusal::ContentsWrong);
    }
    openings_answer(&given)?;
    if room < book_length(n, p) {
        return Err(Refusal::BufferShort);
    }
    Ok(given)
}
