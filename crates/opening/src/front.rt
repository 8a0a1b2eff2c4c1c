// What an accepted opening writes: the head, the contents, the bodies.
ghost use Rattle.std.specs.Prelude.{◌≡◌};
ghost use Rattle.std.proofs.lemmas.List.Edits.{sets};
ghost use Rattle.rules.specs.Loops.{flat};
ghost use Rattle.rules.specs.Layout.{front_length, body_bytes, entry_bytes, front_bytes};
ghost use Rattle.opening.specs.Inner.{number_in, pile_in, book_head, FrontReady, BodiesReady};

use crate::given::Given;
use layout::contents::{put_entry, put_head};
use layout::head::{front_length, head_for};
use layout::lengths::body_length;
use padding::pack;

// The contents, behind the head.
fn put_contents(out: &mut [u8], given: &Given)
    requires { FrontReady given.now out.old }
    ensures { out.new ≡ sets out.old 4 (flat given.now.piles (entry_bytes (book_head given.now) (number_in given.now))) }
{
    let head = given.head();
    for k in 0..given.piles {
        put_entry(out, head, k, given.pile(k).number() as u16).unwrap();
    }
}

// The head, and then the contents.
pub(crate) fn put_front(out: &mut [u8], given: &Given)
    requires { FrontReady given.now out.old }
    ensures { out.new ≡ sets out.old 0 (front_bytes (book_head given.now) (number_in given.now)) }
{
    put_head(out, head_for(given.desks, given.piles)).unwrap();
    put_contents(out, given);
}

// The bodies, one after the other, where the openings of all piles are lawful.
pub(crate) fn put_bodies(out: &mut [u8], given: &Given)
    requires { BodiesReady given.now out.old }
    ensures { out.new ≡ sets out.old (front_length (book_head given.now)) (flat given.now.piles (λ k. body_bytes given.now.desks (pile_in given.now k))) }
{
    let size = body_length(given.desks);
    let mut at = front_length(given.head());
    for k in 0..given.piles {
        let pile = given.pile(k).record().unwrap();
        pack(&pile.numbers(), out, at).unwrap();
        at += size;
    }
}
