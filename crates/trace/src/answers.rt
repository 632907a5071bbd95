// A line for each record of standard input, as its answer comes out of the stream.
ghost use Rattle.desk.specs.Page.{Puts};
ghost use Rattle.trace.specs.Line.{answer_line, tens_of};

use desk::input::{BLOCK, Listener, each_block};
use desk::page::Page;
use desk::print::Stopped;
use desk::progress::Progress;
use mirror::panel::Panel;
use mirror::stream::{Reply, Run, Stream};

// The tens of a number below 100, where it has any: `answer_line` says the digits one by one.
fn put_tens(page: &mut Page, number: u8)
    ensures { Puts (tens_of number) page.old page.new }
{
    if 10 <= number {
        page.put(&[text::digit(number / 10)]);
    }
}

// The line of a record: the number of its answer in decimal, and its byte.
pub(crate) fn put_line(page: &mut Page, number: u8, byte: u8)
    ensures { Puts (answer_line number byte) page.old page.new }
{
    let digits = text::hex(byte);
    put_tens(page, number);
    page.put(&[text::digit(number % 10), b' ', digits[0], digits[1], b'\n']);
}

// Every record that a part makes whole. No iterator: how much of the part was taken is what each turn answers.
fn answer_part(stream: &mut Stream, part: &[u8]) {
    let mut page = Page::blank();
    let mut rest = part;
    loop {
        let next = stream.next(rest);
        *stream = next.after;
        rest = &rest[next.taken..];
        let Reply::Answered(verdict) = next.reply else {
            break;
        };
        put_line(&mut page, verdict.answer.number(), verdict.byte);
    }
    page.write_out();
}

// The stream so far, and whether it refuses: then it is only fed, its records are counted, and get no line.
#[derive(Clone, Copy)]
struct Answering {
    stream: Stream,
    refused: bool,
}

impl Listener for Answering {
    fn hear(&mut self, _progress: &mut Progress, part: &[u8]) -> bool {
        if self.refused {
            self.stream = self.stream.feed(part);
        } else {
            answer_part(&mut self.stream, part);
        }
        true
    }
}

// The whole of standard input.
pub(crate) fn answer_all(rt: &HostRuntime, panel: Panel) -> Result<Run, Stopped> {
    let stream = Stream::start(panel);
    let mut answering = Answering {
        stream,
        refused: stream.ended(),
    };
    let mut block = [0; BLOCK];
    let progress = Progress::start_beside_print(rt);
    each_block(rt, b"trace", progress, &mut block, &mut answering)?;
    Ok(answering.stream.end())
}
