// Why a call is refused: the grounds of document 01 ("Grounds for refusal") and document 02, each with its number.
#![tactic(auto)]

ghost use Rattle.std.specs.Prelude.{◌≡◌};
ghost use Rattle.refusal.specs.Refusals.{refusal_number};

#[derive(Clone, Copy, Debug, PartialEq, Eq)]
pub enum Refusal {
    // The run or a site is not sound, or the number of sites is not 2 to 8.
    NotSound,
    // No such site, a notice about itself, or a message that never goes that way.
    WrongNames,
    // The acting site has stopped.
    ActorStopped,
    // No such message is outstanding, or the noticed site runs or is known to have stopped.
    NotThere,
    // Begin, take over or conclude is not allowed here.
    NotAllowed,
    // The message conflicts with the site's state.
    Conflict,
    // The record is not complete.
    TooShort,
    // The record's length is not 7.
    WrongLength,
    // The record's version is not 1.
    WrongVersion,
    // The kind of event is unknown.
    UnknownK,
    // A field is outside its range.
    WrongField,
    // There is too little room for what is to be written.
    NoRoom,
    // Fewer than 4,096 words are lent.
    FewWords,
    // The sheet's length is missing, 0, or not the length of what follows.
    SheetSize,
    // The sheet's version is not 1.
    SheetVersion,
    // The number of sites is not 2 to 4, or a site's number of states is not 1 to 8.
    SheetCounts,
    // The sheet has more or fewer bytes than its counts give, or over 64 transitions.
    SheetLength,
    // A mark, site, state or vote is outside its range.
    SheetRange,
    // A transition reads nothing.
    ReadsNothing,
    // A message is read by two sites.
    ReadTwice,
    // A transition leads from an abort or commit state to a state of another mark.
    NotFinal,
    // A site's diagram has a cycle, whatever the messages allow.
    Cycle,
    // More than 4,096 global states are reachable.
    ManyStates,
    // A transition can write a message that is still outstanding after its reading.
    Clash,
    // There is too little room for the whole record of the sheet.
    SheetNoRoom,
}

// The documents' number of a ground.
impl From<Refusal> for u8 {
    ghost from_gives = { λ refusal number. number ≡ refusal_number refusal };

    fn from(refusal: Refusal) -> u8 {
        match refusal {
            Refusal::NotSound => 1,
            Refusal::WrongNames => 2,
            Refusal::ActorStopped => 3,
            Refusal::NotThere => 4,
            Refusal::NotAllowed => 5,
            Refusal::Conflict => 6,
            Refusal::TooShort => 10,
            Refusal::WrongLength => 11,
            Refusal::WrongVersion => 12,
            Refusal::UnknownK => 13,
            Refusal::WrongField => 14,
            Refusal::NoRoom => 15,
            Refusal::FewWords => 20,
            Refusal::SheetSize => 21,
            Refusal::SheetVersion => 22,
            Refusal::SheetCounts => 23,
            Refusal::SheetLength => 24,
            Refusal::SheetRange => 25,
            Refusal::ReadsNothing => 26,
            Refusal::ReadTwice => 27,
            Refusal::NotFinal => 28,
            Refusal::Cycle => 29,
            Refusal::ManyStates => 30,
            Refusal::Clash => 31,
            Refusal::SheetNoRoom => 32,
        }
    }
}
