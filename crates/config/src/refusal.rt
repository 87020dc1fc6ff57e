// Why a call was refused. A refused call has changed nothing, unless its own contract says what.
ghost use Rattle.std.specs.Prelude.{◌≡◌};
ghost use Rattle.config.specs.Refusals.{number_of};

#[derive(Clone, Copy)]
pub enum Refusal {
    // The payload does not begin with the signature.
    BadSignature,
    // The command does not fit in what is left of the payload.
    Overflow,
    // The command does not fit in an empty payload.
    TooLarge,
    // A value out of its range: a payload limit, or the words of a raw command.
    InvalidValue,
    // Words that end inside a message, or too many of them.
    InvalidUmpData,
    // The send history has no room for the words.
    Full,
    // The idle interval is not 1 to 300 ms.
    IdleInterval,
    // The idle growth is 0.
    IdleGrowth,
    // The command size is not 1 to 64 words.
    CommandWords,
    // A Retransmit Request or Error without its word.
    Malformed,
    // A reason that is not in the table of its command.
    ReasonNotAllowed,
    // A window, history, request queue or loss sheet of a size that is not taken.
    SizeNotAllowed,
    // A state that no call has left.
    InvalidState,
    // A block of a loss sheet that is not whole records, or longer than 65,536 bytes or its output.
    InvalidBlock,
    // A record of a loss sheet with a class above 2, or with a zero byte that is not zero.
    InvalidRecord,
    // No divisions of an uplink, more than eight, or a turn that is not one of them.
    DivisionsNotAllowed,
}

impl Refusal {
    pub fn number(self) -> u8
        ensures { result ≡ number_of self }
    {
        match self {
            Refusal::BadSignature => 1,
            Refusal::Overflow => 2,
            Refusal::TooLarge => 3,
            Refusal::InvalidValue => 4,
            Refusal::InvalidUmpData => 5,
            Refusal::Full => 6,
            Refusal::IdleInterval => 7,
            Refusal::IdleGrowth => 8,
            Refusal::CommandWords => 9,
            Refusal::Malformed => 10,
            Refusal::ReasonNotAllowed => 11,
            Refusal::SizeNotAllowed => 12,
            Refusal::InvalidState => 13,
            Refusal::InvalidBlock => 16,
            Refusal::InvalidRecord => 17,
            Refusal::DivisionsNotAllowed => 18,
        }
    }
}
