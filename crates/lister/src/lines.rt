// The lines of a listing, as document 01 spells them. The tonnage known is that by the acts which the book holds.
use refusal::Refusal;
use std::io;

pub(crate) fn refused_line(rt: &impl Print, refusal: Refusal) -> io::Result<()> {
    println!(rt; "refused {}", u8::from(refusal))
}

pub(crate) fn book_line(rt: &impl Print, desks: u8, piles: u8) -> io::Result<()> {
    println!(rt; "book desks {desks} piles {piles}")
}

pub(crate) fn pile_line(
    rt: &impl Print,
    number: u16,
    floor: u32,
    top: u32,
    known: u32,
) -> io::Result<()> {
    println!(rt; "pile {number} floor {floor} top {top} known {known}")
}

pub(crate) fn desk_line(
    rt: &impl Print,
    desk: usize,
    draw: u32,
    tip: u32,
    least: u32,
    most: u32,
) -> io::Result<()> {
    println!(rt; "desk {desk} draw {draw} tip {tip} least {least} most {most}")
}
