// Numbers in a byte slice: unsigned, low byte first, 2 and 4 bytes wide.
#![tactic(auto)]

ghost use Rattle.std.specs.Prelude.{◌≡◌, ◌+◌, ltb, length};
ghost use Rattle.std.proofs.lemmas.List.Edits.{sets};
ghost use Rattle.rules.specs.Refusals.{◌when◌, done};
ghost use Rattle.rules.specs.Numbers.{number, bytes, put_answer, after_put};
ghost use Rattle.refusal.specs.Answers.{answered};

use refusal::Refusal;

// Whether count places from one on run past the end of len. at + count itself may not fit a usize.
pub fn runs_past(len: usize, at: usize, count: usize) -> bool
    ensures { result ≡ ltb len (at + count) }
{
    len < count || len - count < at
}

// The number at a position, in 2 bytes and in 4. Bytes past the end count as 0.
#[tactic(auto, using(crate::proofs::Laws::number_past), unfolding(rules::specs::Numbers::number))]
pub fn get2(s: &[u8], at: usize) -> u16
    ensures { result ≡ number 2 s.now at }
{
    if !runs_past(s.len(), at, 2) {
        return u16::from_le_bytes([s[at], s[at + 1]]);
    }
    if at < s.len() {
        return u16::from_le_bytes([s[at], 0]);
    }
    0
}

#[tactic(auto, using(crate::proofs::Laws::number_bytes, crate::proofs::Laws::number_halves, crate::proofs::Laws::number_past))]
pub fn get4(s: &[u8], at: usize) -> u32
    ensures { result ≡ number 4 s.now at }
{
    if !runs_past(s.len(), at, 4) {
        return u32::from_le_bytes([s[at], s[at + 1], s[at + 2], s[at + 3]]);
    }
    if at < s.len() {
        return u32::from(get2(s, at)) + 65536 * u32::from(get2(s, at + 2));
    }
    0
}

// Writes N bytes at a position. Where they run past the end it is refused with 8, and nothing is written.
#[tactic(auto, using(crate::proofs::Parts::back_in_place), unfolding(rules::proofs::Cases::Table::open_refusals))]
fn put<const N: usize>(s: &mut [u8], at: usize, x: [u8; N]) -> Result<(), Refusal>
    ensures answer { answered result ≡ 8 when ltb (length s.old) (at + N) }
    ensures bytes { s.new ≡ done (8 when ltb (length s.old) (at + N)) (sets s.old at x.entry) s.old }
{
    if runs_past(s.len(), at, N) {
        return Err(Refusal::BufferShort);
    }
    s[at..at + N].copy_from_slice(&x);
    Ok(())
}

// Writes a number at a position, in 2 bytes and in 4.
#[tactic(auto, unfolding(rules::specs::Numbers::bytes, rules::specs::Numbers::put_answer, rules::specs::Numbers::after_put, rules::proofs::Cases::Table::open_refusals))]
pub fn put2(s: &mut [u8], at: usize, x: u16) -> Result<(), Refusal>
    ensures answer { answered result ≡ put_answer 2 s.old at }
    ensures bytes { s.new ≡ after_put 2 s.old at x }
{
    put::<2>(s, at, x.to_le_bytes())
}

#[tactic(auto, using(crate::proofs::Laws::four_bytes), unfolding(rules::specs::Numbers::put_answer, rules::specs::Numbers::after_put, rules::proofs::Cases::Table::open_refusals))]
pub fn put4(s: &mut [u8], at: usize, x: u32) -> Result<(), Refusal>
    ensures answer { answered result ≡ put_answer 4 s.old at }
    ensures bytes { s.new ≡ after_put 4 s.old at x }
{
    put::<4>(s, at, x.to_le_bytes())
}
