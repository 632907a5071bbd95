// What a program writes: to standard output its print, to standard error one line where it refuses.
use std::io::Error;

// The descriptors of standard output and standard error.
const STDOUT: i32 = 1;

pub(crate) const STDERR: i32 = 2;

// Nothing further is to be done. What there was to say of it is written.
#[derive(Clone, Copy)]
pub struct Stopped;

// Writes the bytes as they are.
pub fn show(bytes: &[u8]) {
    io::write_all(STDOUT, bytes);
}

// Writes a number in decimal, with the label in front of it.
pub fn show_number(label: &[u8], n: u64) {
    show(label);
    io::print_decimal(STDOUT, n);
}

// Writes each byte as two hexadecimal digits, with the gap in front of it.
pub fn show_bytes(gap: &[u8], bytes: &[u8]) {
    for byte in bytes {
        show(gap);
        show(&text::hex(*byte));
    }
}

// One line on standard error: the program's name, and what is wrong.
pub fn complain(name: &[u8], what: &[u8]) -> Stopped {
    io::write_all(STDERR, name);
    io::write_all(STDERR, b": ");
    io::write_all(STDERR, what);
    io::write_all(STDERR, b"\n");
    Stopped
}

// The words alone, where the number of the system's error stands after them.
fn words(text: &str) -> &str {
    text.split_once(" (os error ")
        .map_or(text, |(words, _)| words)
}

// Why a call of the system failed, in the system's words.
fn tell_reason(rt: &HostRuntime, error: Error) {
    match format!(in rt.alloc(); "{error}") {
        Ok(text) => io::write_all(STDERR, words(text.as_str()).as_bytes()),
        Err(_) => io::write_all(STDERR, b"Cannot allocate memory"),
    };
}

// One line on standard error: what could not be read, and why.
pub(crate) fn fail(rt: &HostRuntime, what: &[u8], error: Error) -> Stopped {
    io::write_all(STDERR, what);
    io::write_all(STDERR, b": ");
    tell_reason(rt, error);
    io::write_all(STDERR, b"\n");
    Stopped
}
