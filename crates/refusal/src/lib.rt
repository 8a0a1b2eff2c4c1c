// Why a call is refused: a number each, which is what callers in other languages are told.
#![tactic(auto)]

ghost use Rattle.std.specs.Prelude.{◌≡◌};
ghost use Rattle.refusal.specs.Answers.{number_of, answered};

// 21 to 27 say of a take's copy what 1 to 7 say of a book.
#[derive(Clone, Copy, Debug, PartialEq, Eq, PartialOrd, Ord, Hash)]
pub enum Refusal {
    BookShort = 1,
    HeadWrong = 2,
    LengthWrong = 3,
    ContentsWrong = 4,
    OpeningUnlawful = 5,
    TallyWrong = 6,
    RightsNegative = 7,
    BufferShort = 8,
    PileAbsent = 10,
    DeskAbsent = 11,
    ReceiverWrong = 12,
    AmountWrong = 13,
    RightsShort = 14,
    LimitReached = 15,
    CopyShort = 21,
    CopyHeadWrong = 22,
    CopyLengthWrong = 23,
    CopyContentsWrong = 24,
    CopyOpeningUnlawful = 25,
    CopyTallyWrong = 26,
    CopyRightsNegative = 27,
    OpeningDiffers = 30,
    RowsSplit = 31,
    OwnRowBehind = 32,
    DigitsWrong = 33,
    TicketPileWrong = 34,
    KindOrDeskWrong = 35,
    BridgeNotRising = 36,
    DeskNotRising = 37,
}

impl From<Refusal> for u8 {
    ghost from_gives = { λ refusal number. number ≡ number_of refusal };

    fn from(refusal: Refusal) -> u8 {
        refusal as u8
    }
}

// What a call in another language is told: 0 where it is done, or the number of its refusal.
pub fn answer(told: Result<(), Refusal>) -> u8
    ensures { result ≡ answered told }
{
    match told {
        Ok(()) => 0,
        Err(refusal) => refusal.into(),
    }
}
