// Entering an act in a book: the desk's rights and the act's tally answer, and that one tally is written.
ghost use Rattle.std.specs.Prelude.{◌≡◌};
ghost use Rattle.rules.specs.Book.{act_answer, after_act};
ghost use Rattle.act_lines.specs.Kinds.{kind_of};
ghost use Rattle.desk.specs.Kinds.{act};
ghost use Rattle.refusal.specs.Answers.{answered};

use act_lines::act_refusal;
use act_lines::kinds::Kind;
use audit::side_rights;
use book::seek;
use layout::cells::cell_at;
use number::{get4, put4};
use refusal::Refusal;

// The act itself: its answer, and the book after it, unaltered where it is refused. The tally lies in a body that was found, so it has its room there.
pub(crate) fn enter(
    book: &mut [u8],
    desk: u8,
    number: u16,
    kind: Kind,
    amount: u32,
) -> Result<(), Refusal>
    ensures answer { answered result ≡ act_answer desk (act (kind_of kind) number amount) book.old }
    ensures book { book.new ≡ after_act desk (act (kind_of kind) number amount) book.old }
{
    let found = seek(book, desk, number)?;
    let n = found.desks;
    let start = found.start as usize;
    let column = kind.column(n);
    let at = start + cell_at(n, desk + 1, column);
    let tally = get4(book, at);
    let rights = side_rights(book, start, n, kind.side(), desk);
    act_refusal(kind.receiver_wrong(n, desk), amount, rights, tally)?;
    put4(book, at, tally + amount)
}
