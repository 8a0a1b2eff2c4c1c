// The list that a book is opened from: for each pile its number, floor, top and shares.
ghost use Rattle.std.specs.Prelude.{◌≡◌, ◌≤◌, ◌<◌, ◌+◌, ◌*◌, not, length, IfOk};
ghost use Rattle.rules.specs.Refusals.{◌when◌};
ghost use Rattle.rules.specs.Pile.{opening_lawful};
ghost use Rattle.rules.specs.Layout.{desk_limit};
ghost use Rattle.rules.specs.Record.{record_of};
ghost use Rattle.layout.specs.Positions.{as_head};
ghost use Rattle.pile.specs.View.{as_record};
ghost use Rattle.refusal.specs.Answers.{answered};

use layout::head::{Head, head_for};
use layout::limits::DESKS;
use padding::runs::copy_run;
use pile::{Pile, SHARES};
use refusal::Refusal;

// The numbers of all piles of a book, one pile behind the other, and nothing more; the book has 1 to 8 desks.
#[derive(Clone, Copy)]
pub(crate) struct Given<'a> {
    pub(crate) numbers: &'a [u32],
    pub(crate) desks: u8,
    pub(crate) piles: u8,
    ghost desks_least: { 1 ≤ desks },
    ghost desks_most: { desks ≤ desk_limit },
    ghost long: { length numbers.now ≡ piles * (3 + 2 * desks) },
}

// What the list has for one pile. The numbers start with it, and it is of 1 to 8 desks.
#[derive(Clone, Copy)]
pub(crate) struct GivenPile<'a> {
    numbers: &'a [u32],
    desks: u8,
    ghost desks_least: { 1 ≤ desks },
    ghost desks_most: { desks ≤ desk_limit },
    ghost whole: { 3 + 2 * desks ≤ length numbers.now },
}

// How many numbers the list has for a pile.
pub(crate) fn pile_size(desks: u8) -> usize
    ensures { result ≡ 3 + 2 * desks }
{
    3 + 2 * usize::from(desks)
}

impl<'a> Given<'a> {
    ghost use Rattle.opening.specs.Inner.{number_in, pile_in, book_head, own_number, own_pile};

    // The head of the book.
    pub(crate) fn head(&self) -> Head
        ensures { as_head result ≡ book_head self.now }
    {
        head_for(self.desks, self.piles)
    }

    // Pile k of the list.
    #[tactic(auto, using(crate::proofs::GivenList::number_from, crate::proofs::GivenList::pile_from))]
    pub(crate) fn pile(&self, k: u8) -> GivenPile<'a>
        requires { k < self.now.piles }
        ensures desks { result.desks ≡ self.now.desks }
        ensures number { own_number result ≡ number_in self.now k }
        ensures pile { own_pile result ≡ pile_in self.now k }
    {
        GivenPile {
            numbers: &self.numbers[usize::from(k) * pile_size(self.desks)..],
            desks: self.desks,
        }
    }
}

impl<'a> GivenPile<'a> {
    ghost use Rattle.opening.specs.Inner.{own_number, own_pile};

    // The number of the pile.
    #[tactic(auto, using(crate::proofs::GivenList::given_first))]
    pub(crate) fn number(self) -> u32
        ensures { result ≡ own_number self.entry }
    {
        self.numbers[0]
    }

    // Its shares, as a record has them.
    fn shares(self) -> [u32; SHARES]
        ensures { result ≡ (record_of self.entry.desks (own_pile self.entry)).shares }
    {
        let count = usize::from(self.desks);
        let mut shares = [0u32; SHARES];
        copy_run(&mut shares, 0, self.numbers, 3, count).unwrap();
        copy_run(&mut shares, DESKS, self.numbers, 3 + count, count).unwrap();
        shares
    }

    // The pile as a fresh record, or 5.
    pub(crate) fn record(self) -> Result<Pile, Refusal>
        ensures answer { answered result ≡ 5 when not (opening_lawful self.entry.desks (own_pile self.entry)) }
        ensures pile { IfOk result (λ pile. as_record pile ≡ record_of self.entry.desks (own_pile self.entry)) }
    {
        Pile::fresh(self.desks, self.numbers[1], self.numbers[2], self.shares())
    }
}
