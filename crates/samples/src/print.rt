// Lines of a test program, on standard output. What is written no promise can say.
ghost use Rattle.std.specs.Prelude.{◌≡◌, IfOk};
ghost use Rattle.refusal.specs.Answers.{answered};

use pile::{Outcome, Pile};
use refusal::{Refusal, answer};
use std::convert::AsSlice;
use std::io;
use std::io::Write;

// Tonnes, or the number of a refusal.
pub fn amount(rt: &impl Print, told: Result<u32, Refusal>) -> io::Result<()> {
    match told {
        Ok(tonnes) => print!(rt; " {tonnes}"),
        Err(refusal) => print!(rt; " refused {}", u8::from(refusal)),
    }
}

// What a line tells of a record that was made: where it is refused, the record of all zeros stands beside the answer.
pub fn made(told: Result<Pile, Refusal>) -> Outcome
    ensures answer { answered result.answer ≡ answered told }
    ensures pile { IfOk told (λ pile. result.pile ≡ pile) }
{
    Outcome {
        answer: told.map(|_| ()),
        pile: told.unwrap_or(Pile::zero()),
    }
}

// A line with a label, text or bytes, an answer, and the tonnage and the draw and tip rights of desks 0, 1 and 2 of the record beside it, which is handed back for
// the next act.
pub fn line(rt: &impl Print, label: impl AsSlice<u8> + Drop, e: Outcome) -> io::Result<Pile>
    ensures { IfOk result (λ p. p ≡ e.pile) }
{
    let pile = e.pile;
    io::writer(rt).write_all(label.as_slice())?;
    print!(rt; ": {} known", answer(e.answer))?;
    amount(rt, pile.tonnage())?;
    print!(rt; " draw")?;
    for desk in 0..3 {
        amount(rt, pile.draw_rights(desk))?;
    }
    print!(rt; " tip")?;
    for desk in 0..3 {
        amount(rt, pile.tip_rights(desk))?;
    }
    println!(rt;)?;
    Ok(pile)
}
