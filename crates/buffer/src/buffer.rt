// Some bytes held in a room for more.
ghost use Rattle.std.specs.Prelude.{◌≡◌, [], ◌∷◌, ◌++◌, take};
ghost use Rattle.buffer.specs.Buffer.{held_of, buffer_of, pushed, push_answer};

// The first `len` of `bytes`, all of them where `len` says more. What lies past `len` is 0 in every buffer made here. Memory
// is fixed, and nothing here is held on a heap, so this is no Vec.
#[derive(Clone, Copy)]
pub struct Buffer<const ROOM: usize> {
    pub bytes: [u8; ROOM],
    pub len: usize,
}

// There is no room for another byte.
#[derive(Clone, Copy, PartialEq, Eq)]
pub struct Full;

impl<const ROOM: usize> Buffer<ROOM> {
    // Nothing held.
    pub fn empty() -> Buffer<ROOM>
        ensures { result ≡ buffer_of ROOM [] }
    {
        Buffer {
            bytes: [0; ROOM],
            len: 0,
        }
    }

    // The bytes of a part, or as many of its first as there is room for.
    pub fn keep(part: &[u8]) -> Buffer<ROOM>
        ensures { result ≡ buffer_of ROOM (take ROOM part.now) }
    {
        let mut kept = Buffer::empty();
        kept.extend(part);
        kept
    }

    // The bytes held.
    pub fn as_slice(&self) -> &[u8]
        ensures { result.now ≡ held_of self.now }
    {
        &self.bytes[..self.len.min(ROOM)]
    }

    // The bytes of a part after those held, or as many of its first as there is room for.
    pub fn extend(&mut self, part: &[u8])
        ensures { self.new ≡ buffer_of ROOM (take ROOM (held_of self.old ++ part.now)) }
    {
        let len = self.len.min(ROOM);
        let n = part.len().min(ROOM - len);
        let rest = &mut self.bytes[..];
        rest[len..].fill(0);
        rest[len..len + n].copy_from_slice(&part[..n]);
        self.len = len + n;
    }

    // One byte after those held, where there is room.
    pub fn push(&mut self, byte: u8) -> Result<(), Full>
        ensures { (result ≡ push_answer self.old) × (self.new ≡ pushed byte self.old) }
    {
        if self.len >= ROOM {
            return Err(Full);
        }
        self.bytes[self.len] = byte;
        self.len += 1;
        Ok(())
    }
}
