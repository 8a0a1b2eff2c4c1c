// A pile's record as a list of numbers: n, and then the numbers of a body of 8 desks, of which those past n are 0. A body of n desks is padded to it, and
// packed from it; and a list is checked as the body that it packs to.
#![tactic(auto)]

mod packed;
mod padded;
pub mod runs;
mod zeros;

ghost use Rattle.std.specs.Prelude.{◌≡◌, length};
ghost use Rattle.padding.specs.Lists.{pad_answer, after_pad, pack_answer, after_pack, list_answer};
ghost use Rattle.refusal.specs.Answers.{answered};

use audit::check_bodies;
use layout::lengths::{LONGEST_BODY, body_length};
use layout::limits::DESKS;
use number::runs_past;
use packed::pack_rows;
use padded::pad_rows;
use refusal::Refusal;
use zeros::{opening_padding_zero, rows_padding_zero};

// A record has places for 8 desks: 8 for each kind of shares and gives, so a row has 18, and the opening has as many.
pub const ROW: usize = 2 + 2 * DESKS;

// Where a row's tip gives start, and the opening's tip shares.
pub const TIPS: usize = 2 + DESKS;

// Where the opening, the shares and the tallies of a record start in its list, and how long that is.
pub const OPENING_AT: usize = 1;

pub const SHARES_AT: usize = OPENING_AT + 2;

pub const TALLIES_AT: usize = OPENING_AT + ROW;

pub const RECORD: usize = TALLIES_AT + DESKS * ROW;

// Fills a list with the record of the body of n desks at a position; refused with 2 for n, 3 where no body is there, or 8 where the list is shorter than a
// record. Numbers past the record stay.
#[tactic(auto, using(crate::proofs::PadLines::pads), unfolding(crate::proofs::PadLines::open_pad))]
pub fn pad(bytes: &[u8], at: usize, n: u8, out: &mut [u32]) -> Result<(), Refusal>
    ensures answer { answered result ≡ pad_answer n at (length bytes.now) (length out.old) }
    ensures out { out.new ≡ after_pad n at bytes.now out.old }
{
    let size = body_length(n);
    if size == 0 {
        return Err(Refusal::HeadWrong);
    }
    if runs_past(bytes.len(), at, size) {
        return Err(Refusal::LengthWrong);
    }
    if out.len() < RECORD {
        return Err(Refusal::BufferShort);
    }
    out[0] = u32::from(n);
    let places = &mut out[OPENING_AT..RECORD];
    places.fill(0);
    pad_rows(places, bytes, n, at);
    Ok(())
}

// Writes the body of a list's record at a position; refused with 3 where the list has another length than a record, 2 for its n, or 8 where the body has no
// room.
#[tactic(auto, using(rules::proofs::File::BodySize::size_in_range), unfolding(crate::proofs::PackLines::open_pack))]
pub fn pack(numbers: &[u32], bytes: &mut [u8], at: usize) -> Result<(), Refusal>
    ensures answer { answered result ≡ pack_answer numbers.now at (length bytes.old) }
    ensures bytes { bytes.new ≡ after_pack numbers.now at bytes.old }
{
    if numbers.len() != RECORD {
        return Err(Refusal::LengthWrong);
    }
    if !(1..=DESKS as u32).contains(&numbers[0]) {
        return Err(Refusal::HeadWrong);
    }
    let n = numbers[0] as u8;
    if runs_past(bytes.len(), at, body_length(n)) {
        return Err(Refusal::BufferShort);
    }
    pack_rows(bytes, at, numbers, n);
    Ok(())
}

// The own refusal of a list's record: 3 where the list has another length than a record, then 2, 5, 6 or 7. The used places are judged as the body that they
// are, and those past n are 0.
#[tactic(auto, using(crate::proofs::Checked::packs))]
pub fn check_record(numbers: &[u32]) -> Result<(), Refusal>
    ensures { answered result ≡ list_answer numbers.now }
{
    let mut body = [0u8; LONGEST_BODY];
    pack(numbers, &mut body, 0)?;
    let n = numbers[0] as u8;
    let judged = check_bodies(&body[0..body_length(n)], 0, n, 1);
    let record = numbers.as_array().unwrap();
    let desks = usize::from(n);
    if judged == Err(Refusal::OpeningUnlawful) || !opening_padding_zero(record, desks) {
        return Err(Refusal::OpeningUnlawful);
    }
    if !rows_padding_zero(record, desks) {
        return Err(Refusal::TallyWrong);
    }
    judged
}
