// A file named among the arguments, read as many bytes as a program may need of it.
ghost use Rattle.std.specs.Prelude.{◌≤◌, IfOk};

use crate::arguments::argument;
use crate::print::{Stopped, fail};
use buffer::buffer::Buffer;
use std::fs::File;
use std::io;
use std::io::{Error, Read};
use std::str::from_utf8;

// Above the size of a font, a panel and a frame: a file that fills it is none of them.
pub const ROOM: usize = 4096;

// What the system says of bytes that are no text: the library opens no file by such a name.
const NO_TEXT: i32 = 84;

fn open(rt: &HostRuntime, path: &[u8]) -> io::Result<File> {
    match from_utf8(path) {
        Ok(text) => File::open(rt, text),
        Err(_) => Err(Error::from_raw_os_error(NO_TEXT)),
    }
}

// Reads until there is no room, the file ends or a read fails, in fixed memory, as the library's `read_to_end` does not. A
// read that goes on brings a byte, so there are no more turns than bytes.
#[tactic(auto, unfolding(buffer::specs::Buffer::buffer_of))]
fn read(mut file: File) -> io::Result<Buffer<ROOM>>
    ensures { IfOk result (λ b. b.len ≤ 4096) }
{
    let mut read = Buffer::empty();
    for _ in 0..ROOM {
        let len = read.len;
        let more = file.read(&mut read.bytes[len..])?;
        if more == 0 {
            break;
        }
        read.len += more;
    }
    Ok(read)
}

// The file that the argument at a place names. One that can't be read writes a line.
pub fn load(rt: &HostRuntime, place: usize) -> Result<Buffer<ROOM>, Stopped>
    ensures { IfOk result (λ b. b.len ≤ 4096) }
{
    let path = argument(rt, place);
    open(rt, path.as_slice())
        .and_then(read)
        .map_err(|error| fail(rt, path.as_slice(), error))
}
