// Numbers and clocks, put on a page.
ghost use Rattle.std.specs.Prelude.{◌≡◌, ◌/◌};
ghost use Rattle.desk.specs.Clock.{Clock, Decimal, Hours, most_clock, most_digits, two_of, within_hour};
ghost use Rattle.desk.specs.Page.{Puts, PutsHere, PutsSome};

use crate::page::Page;
use itoa::Buffer;

// Times are in millionths of a second.
const SECOND: u64 = 1000000;

const MINUTE: u64 = 60 * SECOND;

const HOUR: u64 = 60 * MINUTE;

// The most digits that a number has.
const DIGITS: usize = 20;

// Minutes, seconds and millionths, and the most that a clock has.
const WITHIN: usize = 13;

const CLOCK: usize = DIGITS + WITHIN;

// The last two digits of a number in decimal, the first a zero where a decimal has none (`two_of`).
fn two(n: u64) -> [u8; 2]
    ensures { result ≡ two_of n }
{
    [
        text::digit((n / 10 % 10) as u8),
        text::digit((n % 10) as u8),
    ]
}

// Minutes, seconds and millionths of a time.
fn within_hour(time: u64) -> [u8; WITHIN]
    ensures { result ≡ within_hour time }
{
    let m = two(time / MINUTE % 60);
    let s = two(time / SECOND % 60);
    let a = two(time / 10000);
    let b = two(time / 100);
    let c = two(time);
    [
        b':', m[0], m[1], b':', s[0], s[1], b'.', a[0], a[1], b[0], b[1], c[0], c[1],
    ]
}

impl Page {
    // A number in decimal.
    #[tactic(auto, using(crate::specs::laws::ClockLaws::puts_decimal))]
    pub fn put_number(&mut self, n: u64)
        ensures { PutsSome (Decimal n) self.old self.new }
    {
        self.put(Buffer::new().format(n).as_bytes());
    }

    // Hours: two digits, and more from 100 on.
    fn put_hours(&mut self, hours: u64)
        ensures { PutsSome (Hours hours) self.old self.new }
    {
        if hours < 100 {
            self.put(&two(hours));
        } else {
            self.put_number(hours);
        }
    }

    // A time as hours, minutes, seconds and millionths.
    #[tactic(auto, using(crate::specs::laws::ClockLaws::clock_puts))]
    pub fn put_clock(&mut self, time: u64)
        ensures { PutsSome (Clock time) self.old self.new }
    {
        self.put_hours(time / HOUR);
        self.put(&within_hour(time));
    }

    // A number where the page has room for any number; else nothing. Here and below nothing is written out, as `put_number` does
    // of a full page (docs/DECISIONS.md, "Where a line is put").
    pub fn put_number_here(&mut self, n: u64)
        ensures { PutsHere most_digits (Decimal n) self.old self.new }
    {
        if self.has_room(DIGITS) {
            self.put_number(n);
        }
    }

    // A clock where the page has room for any clock; else nothing.
    pub fn put_clock_here(&mut self, time: u64)
        ensures { PutsHere most_clock (Clock time) self.old self.new }
    {
        if self.has_room(CLOCK) {
            self.put_clock(time);
        }
    }
}
