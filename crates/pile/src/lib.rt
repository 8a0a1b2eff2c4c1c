// A stockpile's record in memory, by value: its constructor, its check, rights, tonnage and the four acts.
#![tactic(auto)]

mod acts;
mod check;
mod lists;
mod queries;

ghost use Rattle.std.specs.Prelude.{◌≡◌, IfOk};
ghost use Rattle.rules.specs.Pile.{draw, tip};
ghost use Rattle.rules.specs.Acts.{spend, give};
ghost use Rattle.rules.specs.Record.{record_answer, body_record, fresh_answer, fresh_record, zero_record, record_tonnage_reply, record_rights_reply, record_act_answer, record_after_act};
ghost use Rattle.padding.specs.Lists.{record_numbers};
ghost use Rattle.layout.specs.Sides.{as_side};
ghost use Rattle.pile.specs.View.{as_record};
ghost use Rattle.pile.specs.Replies.{as_reply};
ghost use Rattle.refusal.specs.Answers.{answered};

use act_lines::kinds::Kind;
use acts::act;
use layout::limits;
use layout::side::Side;
use lists::record_of;
use padding::{RECORD, SHARES_AT, TALLIES_AT, check_record, pad};
use queries::{rights_of, tonnage_of};
use refusal::Refusal;

// A record has places for 8 desks: 8 for each kind of shares and gives, so a row of tallies has 18.
pub const PLACES: usize = limits::DESKS;

pub const SHARES: usize = 2 * PLACES;

pub const ROW: usize = padding::ROW;

pub const TALLIES: usize = PLACES * ROW;

// n desks; shares of draw and then of tip, 8 each; 8 rows of tallies, each tipped, drawn, 8 draw gives and 8 tip gives. All past n is 0.
#[derive(Clone, Copy, Debug, PartialEq, Eq)]
pub struct Pile {
    pub n: u8,
    pub floor: u32,
    pub top: u32,
    pub shares: [u32; SHARES],
    pub tallies: [u32; TALLIES],
}

// What an act hands back: its answer, and the record after it, which is the one before where the act is refused.
#[derive(Clone, Copy, Debug, PartialEq, Eq)]
pub struct Outcome {
    pub answer: Result<(), Refusal>,
    pub pile: Pile,
}

impl Pile {
    pub const DESKS: u8 = limits::DESKS as u8;

    pub const TOP_LIMIT: u32 = limits::TOP_LIMIT as u32;

    pub const TALLY_LIMIT: u64 = limits::TALLY_LIMIT;

    pub const AMOUNT_LIMIT: u32 = limits::AMOUNT_LIMIT;

    // A fresh record, with all tallies 0; refused with 2 or 5.
    #[tactic(auto, unfolding(rules::specs::Record::fresh_answer, rules::specs::Record::fresh_record, rules::specs::Refusals::done))]
    pub fn fresh(n: u8, floor: u32, top: u32, shares: [u32; SHARES]) -> Result<Pile, Refusal>
        ensures answer { answered result ≡ fresh_answer n floor top shares }
        ensures pile { IfOk result (λ pile. as_record pile ≡ fresh_record n floor top shares) }
    {
        let pile = Pile {
            n,
            floor,
            top,
            shares,
            tallies: [0; TALLIES],
        };
        pile.check()?;
        Ok(pile)
    }

    // The record of all zeros, which stands for a body that is not there.
    pub fn zero() -> Pile
        ensures { as_record result ≡ zero_record }
    {
        Pile {
            n: 0,
            floor: 0,
            top: 0,
            shares: [0; SHARES],
            tallies: [0; TALLIES],
        }
    }

    // The record of the body of n desks at a position; where no such body is there, the record of all zeros, which every call on a record refuses with 2.
    #[tactic(auto, using(crate::proofs::RecordNumbers::padded_few, crate::proofs::RecordNumbers::padded_is))]
    pub fn of_body(bytes: &[u8], at: usize, n: u8) -> Pile
        ensures { as_record result ≡ body_record n bytes.now at }
    {
        let mut numbers = [0u32; RECORD];
        // Where it refuses, the list keeps its zeros, which are the record that is wanted then.
        pad(bytes, at, n, &mut numbers).ok();
        record_of(&numbers)
    }

    // The record as a list of numbers.
    pub fn numbers(self) -> [u32; RECORD]
        ensures { result ≡ record_numbers (as_record self) }
    {
        let mut numbers = [0; RECORD];
        numbers[0] = u32::from(self.n);
        numbers[1] = self.floor;
        numbers[2] = self.top;
        numbers[SHARES_AT..TALLIES_AT].copy_from_slice(&self.shares);
        numbers[TALLIES_AT..].copy_from_slice(&self.tallies);
        numbers
    }

    // The record's own refusal: 2, 5, 6 or 7.
    #[tactic(auto, using(crate::proofs::Packed::list_answer_lem))]
    pub fn check(self) -> Result<(), Refusal>
        ensures { answered result ≡ record_answer (as_record self) }
    {
        check_record(&self.numbers())
    }

    // A desk's rights of a side; refused with 2, 5, 6, 7 or 11.
    #[tactic(auto, using(refusal::proofs::Refused::refusals), unfolding(rules::specs::Record::record_rights_reply, rules::proofs::Cases::Table::open_refusals))]
    pub fn rights(self, side: Side, desk: u8) -> Result<u32, Refusal>
        ensures { as_reply result ≡ record_rights_reply (as_side side) desk (as_record self) }
    {
        rights_of(self, side, desk)
    }

    // A desk's draw rights; refused with 2, 5, 6, 7 or 11.
    pub fn draw_rights(self, desk: u8) -> Result<u32, Refusal>
        ensures { as_reply result ≡ record_rights_reply draw desk (as_record self) }
    {
        self.rights(Side::Draw, desk)
    }

    // A desk's tip rights; refused with 2, 5, 6, 7 or 11.
    pub fn tip_rights(self, desk: u8) -> Result<u32, Refusal>
        ensures { as_reply result ≡ record_rights_reply tip desk (as_record self) }
    {
        self.rights(Side::Tip, desk)
    }

    // The tonnage by the acts that the record holds; refused with 2, 5, 6 or 7.
    #[tactic(auto, using(refusal::proofs::Refused::refusals), unfolding(rules::specs::Record::record_tonnage_reply, rules::proofs::Cases::Table::open_refusals))]
    pub fn tonnage(self) -> Result<u32, Refusal>
        ensures { as_reply result ≡ record_tonnage_reply (as_record self) }
    {
        tonnage_of(self)
    }

    // The record after a desk tips; refused with 2, 5, 6, 7, 11, 13, 14 or 15, and then unaltered.
    pub fn tip(self, desk: u8, amount: u32) -> Outcome
        ensures answer { answered result.answer ≡ record_act_answer desk (spend tip) amount (as_record self) }
        ensures pile { as_record result.pile ≡ record_after_act desk (spend tip) amount (as_record self) }
    {
        act(self, desk, Kind::Spend(Side::Tip), amount)
    }

    // The record after a desk draws; refused with 2, 5, 6, 7, 11, 13, 14 or 15, and then unaltered.
    pub fn draw(self, desk: u8, amount: u32) -> Outcome
        ensures answer { answered result.answer ≡ record_act_answer desk (spend draw) amount (as_record self) }
        ensures pile { as_record result.pile ≡ record_after_act desk (spend draw) amount (as_record self) }
    {
        act(self, desk, Kind::Spend(Side::Draw), amount)
    }

    // The record after a desk gives draw rights; refused with 2, 5, 6, 7 or 11 to 15, and then unaltered.
    pub fn give_draw(self, desk: u8, receiver: u8, amount: u32) -> Outcome
        ensures answer { answered result.answer ≡ record_act_answer desk (give draw receiver) amount (as_record self) }
        ensures pile { as_record result.pile ≡ record_after_act desk (give draw receiver) amount (as_record self) }
    {
        act(self, desk, Kind::Give(Side::Draw, receiver), amount)
    }

    // The record after a desk gives tip rights; refused with 2, 5, 6, 7 or 11 to 15, and then unaltered.
    pub fn give_tip(self, desk: u8, receiver: u8, amount: u32) -> Outcome
        ensures answer { answered result.answer ≡ record_act_answer desk (give tip receiver) amount (as_record self) }
        ensures pile { as_record result.pile ≡ record_after_act desk (give tip receiver) amount (as_record self) }
    {
        act(self, desk, Kind::Give(Side::Tip, receiver), amount)
    }
}
