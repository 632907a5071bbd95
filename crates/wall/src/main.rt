// What the glass showed: reads a log on standard input, and draws the panel as it then stands.
#![tactic(auto)]

mod apart;
mod bitmap;
mod codes;
mod draw;
mod follow;
mod font;
mod glass;
mod live;
mod look;
mod status;
mod svg;
mod watch;
mod written;

use buffer::buffer::Buffer;
use desk::arguments::{GROUPS, Given, asked};
use desk::bytes::{ROOM, load};
use desk::number::number_at;
use desk::print::{Stopped, complain};
use desk::told::told_at;
use framing::front::TIME_END;
use glass::{Form, Wanted};
use live::show_living;
use mirror::stream::Stream;
use picture::pattern::FONT_SIZE;
use watch::watch_all;

// The groups of arguments.
const ASCII: usize = 0;

const PBM: usize = 1;

const SVG: usize = 2;

const DARK: usize = 3;

const UPRIGHT: usize = 4;

const APART: usize = 5;

const LIVE: usize = 6;

const AT: usize = 7;

const FONT: usize = 8;

const CHIP: usize = 9;

const TIMES: usize = 10;

// No record's time is later.
const LATEST: u64 = TIME_END;

// Of the three ways to write a picture one is taken.
fn one_form(ascii: bool, pbm: bool, svg: bool) -> Result<Form, Stopped> {
    match (ascii, pbm, svg) {
        (false, false, false) => Ok(Form::Blocks),
        (true, false, false) => Ok(Form::Marks),
        (false, true, false) => Ok(Form::Bitmap),
        (false, false, true) => Ok(Form::Svg),
        _ => Err(complain(b"wall", b"takes one of ascii, pbm and svg")),
    }
}

// A picture at a time ends, and a bitmap or an SVG is a file with one picture.
fn live_alone(live: bool, form: Form, at: bool) -> Result<(), Stopped> {
    if live && (at || matches!(form, Form::Bitmap | Form::Svg)) {
        return Err(complain(b"wall", b"takes live without pbm, svg and at"));
    }
    Ok(())
}

// The bitmap is the frame as it is.
fn whole_bitmap(apart: bool, form: Form) -> Result<(), Stopped> {
    if apart && matches!(form, Form::Bitmap) {
        return Err(complain(b"wall", b"takes apart without pbm"));
    }
    Ok(())
}

// The form that the words ask for, which have to stand together.
fn form_of(places: [Option<usize>; GROUPS]) -> Result<Form, Stopped> {
    let form = one_form(
        places[ASCII].is_some(),
        places[PBM].is_some(),
        places[SVG].is_some(),
    )?;
    live_alone(places[LIVE].is_some(), form, places[AT].is_some())?;
    whole_bitmap(places[APART].is_some(), form)?;
    Ok(form)
}

// The time to stop at.
fn time_at(rt: &HostRuntime, place: usize) -> Result<u64, Stopped> {
    number_at(rt, place, LATEST).ok_or_else(|| complain(
        b"wall",
        b"at takes a time of at most 281474976710656",
    ))
}

// The font that an argument names.
fn font_at(rt: &HostRuntime, place: usize) -> Result<Buffer<ROOM>, Stopped> {
    let font = load(rt, place)?;
    if font.as_slice().len() != FONT_SIZE {
        return Err(complain(b"wall", b"a font has 1920 bytes"));
    }
    Ok(font)
}

// Watches the log up to the time, then shows what the glass did.
fn show_once(
    rt: &HostRuntime,
    start: Stream,
    until: Option<u64>,
    wanted: Wanted<'_>,
) -> Result<(), Stopped> {
    let stream = watch_all(rt, start, until)?;
    wanted.show(stream.end().panel);
    Ok(())
}

// What was asked for.
fn arguments(rt: &HostRuntime) -> Result<Given, Stopped> {
    asked(
        rt,
        b"wall",
        b"ascii, pbm, svg, dark, upright, apart, live, at TIME, font FILE, chip NAME, times R L S",
        b"wall < LOG draws what the glass showed at the end of the log: 8 rows of 80 dots, of two lines 16, two\n\
        to a line; then the sixteen codes that each line shows, as text and as numbers, the cursor's position,\n\
        and the display addresses that hold no space.\n\
        ascii        a line for each row of dots, of # and .\n\
        pbm          a portable bitmap of the dots, and nothing else\n\
        svg          a drawing for browsers and paper, and nothing else\n\
        dark         the blink is dark; without it, light\n\
        upright      the picture as in pin configuration mode A; without it, in the mode that the panel is in\n\
        apart        a blank column between two cells and a blank row between two lines, as live and svg have them\n\
        live         the picture again and again, as the log comes, drawn over the last one on a terminal\n\
        at TIME      the glass at this time, in microseconds, at most 281474976710656\n\
        font FILE    1920 bytes: codes 10h to FFh, eight rows each; without it, a font of its own\n\
        chip NAME    6631, one line, or 6635, two lines; without it, 6631\n\
        times R L S  reset, long and short time in microseconds; without it, 10000 1640 40\n",
    )
}

fn run(rt: &HostRuntime) -> Result<(), Stopped> {
    let places = arguments(rt)?.places;
    let form = form_of(places)?;
    let told = told_at(rt, b"wall", places[CHIP], places[TIMES])?;
    let until = places[AT].map(|place| time_at(rt, place)).transpose()?;
    let named = places[FONT].map(|place| font_at(rt, place)).transpose()?;
    let living = places[LIVE].is_some();
    // Live, the cells stand apart.
    let wanted = Wanted {
        form,
        font: match &named {
            Some(font) => font.as_slice(),
            None => font::built_in(),
        },
        apart: places[APART].is_some() || living,
        dark: places[DARK].is_some(),
        upright: places[UPRIGHT].is_some(),
    };
    let start = Stream::start(told.panel());
    if living {
        show_living(rt, start, wanted)
    } else {
        show_once(rt, start, until, wanted)
    }
}

fn main(rt: HostRuntime) {
    let _ = run(&rt);
}
