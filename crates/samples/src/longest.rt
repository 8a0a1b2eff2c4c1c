// The list that opens the longest book: 8 desks and 32 piles. Pile k, from 0, has number k + 1, floor 0, top 16 and all 16 shares 1.
ghost use Rattle.std.specs.Prelude.{◌<◌};

const NUMBERS: usize = 608;

// How many numbers the list has for a pile.
const OF_PILE: usize = 19;

// The number at a place of the list.
fn given(at: usize) -> u32
    requires { at < NUMBERS }
{
    match at % OF_PILE {
        0 => (at / OF_PILE) as u32 + 1,
        1 => 0,
        2 => 16,
        _ => 1,
    }
}

pub fn longest_list() -> [u32; NUMBERS] {
    let mut numbers = [0u32; NUMBERS];
    for at in 0..NUMBERS {
        numbers[at] = given(at);
    }
    numbers
}
