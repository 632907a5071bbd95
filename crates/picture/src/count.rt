// How many dots of a frame are lit: the ones of its bytes, added up.
ghost use Rattle.std.specs.Prelude.{◌≡◌, ◌≤◌, length};
ghost use Rattle.dots.specs.engine.Ones.{ByteOnes, ones_of};
ghost use Rattle.picture.specs.Frame.{most_frame_size};

fn byte_ones(byte: u8) -> u16
    ensures { ByteOnes byte result }
{
    byte.count_ones() as u16
}

// The sum has 16 bits, so that the compiler counts eight bytes at a time.
pub(crate) fn ones(frame: &[u8]) -> usize
    requires { length frame.now ≤ most_frame_size }
    ensures { result ≡ ones_of frame.now }
{
    let lit: u16 = frame.iter().map(|byte| byte_ones(*byte)).sum();
    lit as usize
}
