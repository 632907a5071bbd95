// The engine's state: a panel without its memories, which are lent beside it. Its registers then lie in the processor's; with
// the memories in it a record took up to a fifth longer (docs/DECISIONS.md, "Speed").
ghost use Rattle.std.specs.Prelude.{◌≡◌, ◌<◌, leb, ltb};
ghost use Rattle.laws.specs.Pick.{pick};
ghost use Rattle.mirror.specs.Panel.{time_end};
ghost use Rattle.mirror.specs.engine.Live.{live_of, panel_of, held, acted, verdict, Shows};

use crate::answer::{Answer, Verdict};
use crate::half::Half;
use crate::panel::{Panel, Times};
use chip::registers::Registers;
use chip::sheet::Sheet;
use chip::sizes::{DISPLAY_SIZE, PATTERN_SIZE};

#[derive(Clone, Copy)]
pub(crate) struct Live {
    pub registers: Registers,
    pub busy: u64,
    pub half: Half,
    pub times: Times,
    pub last: u64,
}

// How long an instruction keeps the chip busy: Clear and Return Home are below 04h.
pub(crate) fn span(times: Times, code: u8) -> u16
    ensures { result ≡ pick (ltb code 4) times.long times.short }
{
    if code < 4 { times.long } else { times.short }
}

impl Live {
    pub(crate) fn of(panel: Panel) -> Live
        ensures { result ≡ live_of panel }
    {
        Live {
            registers: panel.sheet.registers,
            busy: panel.busy,
            half: panel.half,
            times: panel.times,
            last: panel.last,
        }
    }

    // The panel put together again.
    pub(crate) fn panel(self, display: [u8; DISPLAY_SIZE], pattern: [u8; PATTERN_SIZE]) -> Panel
        ensures { result ≡ panel_of self display pattern }
    {
        Panel {
            sheet: Sheet {
                registers: self.registers,
                display,
                pattern,
            },
            busy: self.busy,
            half: self.half,
            times: self.times,
            last: self.last,
        }
    }

    // A transfer is free when its time is at or after the busy end.
    pub(crate) fn free(&self, time: u64) -> bool
        ensures { result ≡ leb self.now.busy time }
    {
        self.busy <= time
    }

    // A record is back when its time is below the last time seen.
    pub(crate) fn back(&self, time: u64) -> bool
        ensures { result ≡ ltb time self.now.last }
    {
        time < self.last
    }

    // Answered so, with this half waiting afterwards.
    pub(crate) fn hold(&mut self, time: u64, half: Half, answer: Answer, byte: u8) -> Verdict
        ensures { (self.new ≡ held time half self.old) × (result ≡ verdict answer byte) }
    {
        self.half = half;
        self.last = time;
        Verdict { answer, byte }
    }

    // Nothing is carried out, and no half waits afterwards.
    pub(crate) fn pass(&mut self, time: u64, answer: Answer, byte: u8) -> Verdict
        ensures { (self.new ≡ held time Half.Empty self.old) × (result ≡ verdict answer byte) }
    {
        self.hold(time, Half::Empty, answer, byte)
    }

    // Carried out, with the registers as they then are.
    pub(crate) fn done(
        &mut self,
        registers: Registers,
        time: u64,
        span: u16,
        answer: Answer,
        byte: u8,
    ) -> Verdict
        requires { time < time_end }
        ensures { (self.new ≡ acted registers time span self.old) × (result ≡ verdict answer byte) }
    {
        let verdict = self.pass(time, answer, byte);
        self.registers = registers;
        self.busy = time + span as u64;
        verdict
    }

    // The byte of a status read.
    pub(crate) fn status(&self, time: u64) -> u8
        ensures { Shows time self.now result }
    {
        let n = self.registers.address.number(self.registers.chip);
        if self.free(time) { n } else { 128 + n }
    }
}
