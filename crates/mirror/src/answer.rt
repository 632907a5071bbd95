// The answers to a record, their numbers and their names; and why a call is refused.
ghost use Rattle.std.specs.Prelude.{◌≡◌};
ghost use Rattle.mirror.specs.Answer.{name_of, number_of, place_of};
ghost use Rattle.mirror.specs.Answers.{clocked};
ghost use Rattle.mirror.specs.Refusal.{refusal_number};

use crate::count::COUNTS;

// Nothing, Cut and Unsound are answers that the rules number, 7, 8 and 10, and not the lack of one.
#[derive(Clone, Copy, PartialEq, Eq)]
pub enum Answer {
    Taken,
    Doubtful,
    Held,
    Status,
    Ignored,
    Torn,
    Back,
    Bad,
    Nothing,
    Cut,
    Unsound,
}

impl Answer {
    // The case's own number is the place of its count, so the numbers of the rules are told here (docs/DECISIONS.md).
    pub fn number(self) -> u8
        ensures { result ≡ number_of self }
    {
        match self {
            Answer::Taken => 0,
            Answer::Doubtful => 11,
            Answer::Held => 1,
            Answer::Status => 2,
            Answer::Ignored => 3,
            Answer::Torn => 4,
            Answer::Back => 5,
            Answer::Bad => 6,
            Answer::Nothing => 7,
            Answer::Cut => 8,
            Answer::Unsound => 10,
        }
    }

    // Whether it sets the last time to the record's: carried out, which is 0 or 11, or another of 1 to 4, or 7.
    pub fn clocked(self) -> bool
        ensures { result ≡ clocked (number_of self) }
    {
        !matches!(
            self,
            Answer::Back | Answer::Bad | Answer::Cut | Answer::Unsound
        )
    }

    // The place of its count; past the last where it has none. The cases stand in that order, so that it costs nothing; as an
    // Option of a place it costs the loop over records a seventh at width 4.
    pub fn place(self) -> u8
        ensures { result ≡ place_of (number_of self) }
    {
        match self {
            Answer::Taken => 0,
            Answer::Doubtful => 1,
            Answer::Held => 2,
            Answer::Status => 3,
            Answer::Ignored => 4,
            Answer::Torn => 5,
            Answer::Back => 6,
            Answer::Bad => 7,
            Answer::Nothing => 8,
            Answer::Cut => 9,
            Answer::Unsound => 9,
        }
    }

    // Bytes for a page or for standard output, which no formatter writes to: so no Display.
    pub fn name(self) -> &'static str
        ensures { result.now ≡ name_of self }
    {
        match self {
            Answer::Taken => "taken",
            Answer::Doubtful => "doubtful",
            Answer::Held => "held",
            Answer::Status => "status",
            Answer::Ignored => "ignored",
            Answer::Torn => "torn",
            Answer::Back => "back",
            Answer::Bad => "bad",
            Answer::Nothing => "none",
            Answer::Cut => "cut",
            Answer::Unsound => "unsound",
        }
    }
}

// The answers that have a count, each at its place.
pub const COUNTED: [Answer; COUNTS] = [
    Answer::Taken,
    Answer::Doubtful,
    Answer::Held,
    Answer::Status,
    Answer::Ignored,
    Answer::Torn,
    Answer::Back,
    Answer::Bad,
    Answer::Nothing,
];

// How a record is answered, with the byte on the bus.
#[derive(Clone, Copy)]
pub struct Verdict {
    pub answer: Answer,
    pub byte: u8,
}

impl Verdict {
    // With nothing on the bus.
    pub(crate) fn of(answer: Answer) -> Verdict
        ensures { result ≡ record { answer = answer; byte = 0 } }
    {
        Verdict { answer, byte: 0 }
    }
}

// Why a call is refused: a log or record that is cut, a frame of another size, a panel or chip that is not sound.
#[derive(Clone, Copy, PartialEq, Eq)]
pub enum Refusal {
    Cut = 8,
    Size = 9,
    Unsound = 10,
}

impl Refusal {
    pub fn number(self) -> u8
        ensures { result ≡ refusal_number self }
    {
        self as u8
    }
}
