// A line for each record of standard input, every one by a call of its own on the panel that the one before it left.
ghost use Rattle.std.specs.Prelude.{◌≡◌, ◌≤◌, length};
ghost use Rattle.trace.specs.engine.Records.{run_after, run_over, run_start};

use crate::answers::{answer_all, put_line};
use desk::input::{BLOCK, Listener, each_block};
use desk::page::Page;
use desk::print::Stopped;
use desk::progress::Progress;
use framing::carry::Carry;
use framing::front::wants_more;
use mirror::answer::Answer;
use mirror::count::{COUNTS, raise, tally};
use mirror::panel::Panel;
use mirror::record::Recorded;
use mirror::stream::Run;

// Before the first record. Counted here and not by the mirror's own totals: this way of asking is held against the stream's.
fn started(panel: Panel) -> Run
    ensures { result ≡ run_start panel }
{
    Run {
        panel,
        counts: [0; COUNTS],
        records: 0,
        cut: false,
        refused: false,
    }
}

// After a record.
fn count(run: &mut Run, r: Recorded)
    ensures { run.new ≡ run_after run.old r }
{
    run.panel = r.panel;
    tally(&mut run.counts, r.answer);
    run.records = raise(run.records);
}

// After bytes that hold no record: the answer to them ends the reading.
fn end_at(run: &mut Run, tail: &[u8])
    ensures { run.new ≡ run_over run.old tail.now }
{
    let answer = run.panel.record(tail).answer;
    run.refused = answer == Answer::Unsound;
    run.cut = !run.refused;
}

// Every whole record at the front of the bytes, its line put on the page: what is left of them. No iterator: where a record
// ends is what each turn answers. report and wall read so too, each with what it asks of a record between two turns.
#[tactic(auto, using(crate::specs::laws::RecordsLaws::used_within))]
fn read_records<'a>(run: &mut Run, bytes: &'a [u8], page: &mut Page) -> &'a [u8]
    ensures { length result.now ≤ length bytes.now }
{
    let mut rest = bytes;
    loop {
        let r = run.panel.record(rest);
        if r.used == 0 {
            return rest;
        }
        put_line(page, r.answer.number(), r.byte);
        count(run, r);
        rest = &rest[r.used..];
    }
}

// What is left of a part waits where it wants more; otherwise it ends the reading.
fn keep(run: &mut Run, tail: &[u8]) -> Carry {
    if wants_more(tail) {
        return Carry::keep(tail);
    }
    end_at(run, tail);
    Carry::empty()
}

// A part of the log, after the bytes that wait, whose record comes first: the bytes that then wait.
fn read_part(run: &mut Run, waiting: Carry, part: &[u8]) -> Carry {
    let filled = waiting.wanting().fill(part);
    let mut page = Page::blank();
    let mut tail = read_records(run, filled.carry.bytes(), &mut page);
    if tail.is_empty() {
        tail = read_records(run, &part[filled.taken..], &mut page);
    }
    page.write_out();
    keep(run, tail)
}

// The run so far, the bytes that wait, and what is shown of how far the reading is: here once a part has its lines.
#[derive(Clone, Copy)]
struct Recording<'a> {
    rt: &'a HostRuntime,
    run: Run,
    carry: Carry,
    shown: Progress,
}

impl Recording<'_> {
    fn show(&mut self, len: usize) {
        self.shown.after(self.rt, b"trace", len);
    }
}

impl Listener for Recording<'_> {
    fn hear(&mut self, _progress: &mut Progress, part: &[u8]) -> bool {
        if self.run.refusal().is_none() {
            self.carry = read_part(&mut self.run, self.carry, part);
        }
        if !part.is_empty() {
            self.show(part.len());
        }
        true
    }
}

// The whole of standard input. A panel that is refused takes no record, and so none can move it on: how many there are
// is then read off by the stream.
pub(crate) fn record_all(rt: &HostRuntime, panel: Panel) -> Result<Run, Stopped> {
    if panel.record(b"").answer == Answer::Unsound {
        return answer_all(rt, panel);
    }
    let mut recording = Recording {
        rt,
        run: started(panel),
        carry: Carry::empty(),
        shown: Progress::start_beside_print(rt),
    };
    let mut block = [0; BLOCK];
    let read = each_block(rt, b"trace", Progress::hidden(), &mut block, &mut recording);
    recording.show(0);
    recording.shown.clear();
    read?;
    let mut run = recording.run;
    if !recording.carry.bytes().is_empty() {
        end_at(&mut run, recording.carry.bytes());
    }
    Ok(run)
}
