// A list of numbers as a record.
ghost use Rattle.std.specs.Prelude.{◌≡◌, ◌+◌, ◌≤◌, get_or};
ghost use Rattle.rules.specs.Numbers.{part};
ghost use Rattle.padding.specs.Lists.{record_length, numbers_record};
ghost use Rattle.pile.specs.View.{as_record};

use crate::Pile;
use padding::{RECORD, SHARES_AT, TALLIES_AT};

// N numbers of a list of a record's length, from a place on.
fn run_of<const N: usize>(numbers: &[u32; RECORD], at: usize) -> [u32; N]
    requires { at + N ≤ record_length }
    ensures { result ≡ part at N numbers.now }
{
    let mut run = [0; N];
    run.copy_from_slice(&numbers[at..at + N]);
    run
}

// A list of a record's length as a record. The struct's n has one byte.
#[tactic(auto, unfolding(padding::specs::Lists::numbers_record))]
pub(crate) fn record_of(numbers: &[u32; RECORD]) -> Pile
    requires { get_or numbers.now 0 0 ≤ 8 }
    ensures { as_record result ≡ numbers_record numbers.now }
{
    Pile {
        n: numbers[0] as u8,
        floor: numbers[1],
        top: numbers[2],
        shares: run_of(numbers, SHARES_AT),
        tallies: run_of(numbers, TALLIES_AT),
    }
}
