// What is to be written, gathered on a page that is written out whenever it is full.
ghost use Rattle.std.specs.Prelude.{◌≡◌, ◌+◌, ◌≤◌, [], ◌∷◌, length, nat_le};
ghost use Rattle.desk.specs.Page.{Puts, PutsHere, blank_page, page_size, printed, with_room};

use crate::print::show;

pub const PAGE: usize = 4096;

// What is to be written are the first `end` bytes, or all where that says more. It is no buffer, since what is full there stays
// full, and a full page goes on at its front.
#[derive(Clone, Copy)]
pub struct Page {
    pub bytes: [u8; PAGE],
    pub end: usize,
}

impl Page {
    pub fn blank() -> Page
        ensures { result ≡ blank_page }
    {
        Page {
            bytes: [0; PAGE],
            end: 0,
        }
    }

    pub fn as_slice(&self) -> &[u8]
        ensures { result.now ≡ printed self.now }
    {
        &self.bytes[..self.end.min(PAGE)]
    }

    // Writes out what is on the page, which stays as it is.
    pub fn write_out(&self) {
        show(self.as_slice());
    }

    // Whether there is room for so many bytes.
    pub(crate) fn has_room(&self, size: usize) -> bool
        ensures { result ≡ nat_le (self.now.end + size) page_size }
    {
        self.end.saturating_add(size) <= PAGE
    }

    // Makes room for so many bytes: where there is none, what is on the page is written out, and the next byte goes to the
    // front.
    pub fn make_room(&mut self, size: usize)
        ensures { self.new ≡ with_room size self.old }
    {
        if !self.has_room(size) {
            self.write_out();
            self.end = 0;
        }
    }

    #[tactic(auto, using(crate::specs::laws::PageLaws::puts_byte))]
    fn put_byte(&mut self, byte: u8)
        ensures { Puts (byte ∷ []) self.old self.new }
    {
        self.make_room(1);
        self.bytes[self.end] = byte;
        self.end += 1;
    }

    // Puts bytes one after another, each where there is room.
    #[tactic(auto, using(crate::specs::laws::PageLaws::rows, crate::specs::laws::PageLaws::parts))]
    fn put_each(&mut self, bytes: &[u8])
        ensures { Puts bytes.now self.old self.new }
    {
        for byte in bytes {
            self.put_byte(*byte);
        }
    }

    // Puts bytes that there is room for.
    #[tactic(auto, using(crate::specs::laws::PageLaws::puts_pasted))]
    fn paste(&mut self, bytes: &[u8])
        requires { self.old.end + length bytes.now ≤ page_size }
        ensures { Puts bytes.now self.old self.new }
    {
        let end = self.end + bytes.len();
        self.bytes[self.end..end].copy_from_slice(bytes);
        self.end = end;
    }

    // Puts bytes one after another. Nearly always there is room for all of them, and they are copied as one.
    pub fn put(&mut self, bytes: &[u8])
        ensures { Puts bytes.now self.old self.new }
    {
        if self.has_room(bytes.len()) {
            self.paste(bytes);
        } else {
            self.put_each(bytes);
        }
    }

    // Puts bytes where there is room for all of them; else nothing. There is no write in it: what is put is told before the room
    // is made for it, by `make_room`.
    pub fn put_here(&mut self, bytes: &[u8])
        ensures { PutsHere (length bytes.now) (λ s. s ≡ bytes.now) self.old self.new }
    {
        if self.has_room(bytes.len()) {
            self.paste(bytes);
        }
    }
}
