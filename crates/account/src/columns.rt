// The columns of a line of the report, and the three ways to make a line.
ghost use Rattle.std.specs.Prelude.{◌≡◌};
ghost use Rattle.account.specs.Columns.{what_of, shown_at, shown_of, meaning_of, line_with, alone_line, plain_line};

use framing::flaw::Flaw;
use mirror::answer::Answer;

// The report's column `what`.
#[derive(Clone, Copy)]
pub enum What {
    InstructionWrite,
    DataWrite,
    StatusRead,
    DataRead,
    Reset,
    Record,
}

// Its column `byte`: one half by its byte, or a byte that is whole or joined.
#[derive(Clone, Copy)]
pub enum Shown {
    Half(u8),
    Whole(u8),
}

// What its column `meaning` is taken from.
#[derive(Clone, Copy)]
pub enum Meaning {
    Flaw(Flaw),
    TornBy(What),
    Character(u8),
    Instruction(u8),
}

// A line of the report. A bad record has no time.
#[derive(Clone, Copy)]
pub struct Line {
    pub number: u64,
    pub second: Option<u64>,
    pub time: Option<u64>,
    pub answer: Answer,
    pub what: What,
    pub byte: Option<Shown>,
    pub meaning: Option<Meaning>,
}

// A transfer, as its record has it.
#[derive(Clone, Copy)]
pub struct Transfer {
    pub time: u64,
    pub rs: bool,
    pub rw: bool,
    pub byte: u8,
}

// A first half, and the number of its record.
#[derive(Clone, Copy)]
pub struct First {
    pub number: u64,
    pub half: Transfer,
}

// A transfer that is complete: its record's number, that of its second half, its time and its byte.
#[derive(Clone, Copy)]
pub struct Begun {
    pub number: u64,
    pub second: Option<u64>,
    pub time: u64,
    pub byte: u8,
}

impl Transfer {
    pub(crate) fn what(self) -> What
        ensures { result ≡ what_of self.rs self.rw }
    {
        match (self.rs, self.rw) {
            (false, false) => What::InstructionWrite,
            (true, false) => What::DataWrite,
            (false, true) => What::StatusRead,
            (true, true) => What::DataRead,
        }
    }

    // What is shown of a byte: nothing where it is read.
    fn shown(self, byte: Shown) -> Option<Shown>
        ensures { result ≡ shown_of self.rw byte }
    {
        if self.rw { None } else { Some(byte) }
    }

    fn meaning(self, byte: Option<Shown>) -> Option<Meaning>
        ensures { result ≡ meaning_of self.rs byte }
    {
        match byte {
            Some(Shown::Whole(b)) if self.rs => Some(Meaning::Character(b)),
            Some(Shown::Whole(b)) => Some(Meaning::Instruction(b)),
            Some(Shown::Half(_)) | None => None,
        }
    }
}

impl Shown {
    // A byte by itself, at a width.
    pub(crate) fn at(eight: bool, byte: u8) -> Shown
        ensures { result ≡ shown_at eight byte }
    {
        if eight {
            Shown::Whole(byte)
        } else {
            Shown::Half(byte)
        }
    }
}

impl Line {
    // A transfer with its byte.
    pub(crate) fn with_byte(sent: Transfer, byte: Shown, answer: Answer, begun: Begun) -> Line
        ensures { result ≡ line_with sent byte answer begun }
    {
        let shown = sent.shown(byte);
        Line {
            number: begun.number,
            second: begun.second,
            time: Some(begun.time),
            answer,
            what: sent.what(),
            byte: shown,
            meaning: sent.meaning(shown),
        }
    }

    // A first half without its second: torn, or never finished.
    pub(crate) fn alone(
        second: Option<u64>,
        answer: Answer,
        meaning: Option<Meaning>,
        first: First,
    ) -> Line
        ensures { result ≡ alone_line second answer meaning first }
    {
        let half = first.half;
        Line {
            number: first.number,
            second,
            time: Some(half.time),
            answer,
            what: half.what(),
            byte: half.shown(Shown::Half(half.byte)),
            meaning,
        }
    }

    // A record that is no transfer.
    pub(crate) fn plain(
        number: u64,
        time: Option<u64>,
        answer: Answer,
        what: What,
        meaning: Option<Meaning>,
    ) -> Line
        ensures { result ≡ plain_line number time answer what meaning }
    {
        Line {
            number,
            second: None,
            time,
            answer,
            what,
            byte: None,
            meaning,
        }
    }
}
