// Why a request is refused, and the answer to it.
#![tactic(auto)]

ghost use Rattle.std.specs.Prelude.{◌≡◌};
ghost use Rattle.verdict.specs.Code.{code_of, status_of};

// One reason for each check of the protocol, in the order in which it names them.
#[derive(Clone, Copy)]
pub enum Reason {
    // every complete packet
    WrongEtx,
    WrongSum,
    // every complete command
    UnknownCommand,
    WrongLength,
    WrongStage,
    // a range of addresses
    Reversed,
    StartNowhere,
    EndNowhere,
    TwoAreas,
    NoUnit,
    StartUnaligned,
    EndUnaligned,
    BelowWindow,
    AboveWindow,
    // authenticate
    Locked,
    OtherId,
    // baud rate
    RateZero,
    RateAboveLimit,
    RateOff,
    // area
    NoSuchArea,
    // write data
    NotWriteData,
    NoData,
    TooMuchData,
    BrokenUnit,
    DirtyFlash,
    // the read's next packet
    NotNextRequest,
    // a length outside its range, refused behind the second length byte
    LengthRefused,
}

// What a request is answered: granted, or refused for a reason. No case is a number, so none can be mistaken for an answer that was never given.
pub type Verdict = Result<(), Reason>;

// The paper's code of a reason.
impl From<Reason> for u8 {
    ghost from_gives = { λ reason n. n ≡ code_of reason };

    fn from(reason: Reason) -> u8 {
        match reason {
            Reason::WrongEtx => 0xC1,
            Reason::WrongSum => 0xC2,
            Reason::UnknownCommand => 0xC0,
            Reason::WrongLength => 0xC1,
            Reason::WrongStage => 0xC3,
            Reason::Reversed => 0xD0,
            Reason::StartNowhere => 0xD0,
            Reason::EndNowhere => 0xD0,
            Reason::TwoAreas => 0xD0,
            Reason::NoUnit => 0xD0,
            Reason::StartUnaligned => 0xD0,
            Reason::EndUnaligned => 0xD0,
            Reason::BelowWindow => 0xDA,
            Reason::AboveWindow => 0xDA,
            Reason::Locked => 0xDC,
            Reason::OtherId => 0xDB,
            Reason::RateZero => 0xD4,
            Reason::RateAboveLimit => 0xD4,
            Reason::RateOff => 0xD4,
            Reason::NoSuchArea => 0xD0,
            Reason::NotWriteData => 0xC1,
            Reason::NoData => 0xC1,
            Reason::TooMuchData => 0xC1,
            Reason::BrokenUnit => 0xC1,
            Reason::DirtyFlash => 0xE2,
            Reason::NotNextRequest => 0xC1,
            Reason::LengthRefused => 0xC1,
        }
    }
}

// STS: 00h for a granted request, the reason's code for a refused one. No From: a verdict is std's Result.
pub fn status(verdict: Verdict) -> u8
    ensures { result ≡ status_of verdict }
{
    match verdict {
        Ok(()) => 0x00,
        Err(reason) => u8::from(reason),
    }
}
