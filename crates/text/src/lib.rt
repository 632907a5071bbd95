// How the programs write a byte.
#![tactic(auto)]

ghost use Rattle.std.specs.Prelude.{◌≡◌};
ghost use Rattle.text.specs.Hex.{digit_of, hex_of};

// A hexadecimal digit, in upper case.
pub fn digit(n: u8) -> u8
    ensures { result ≡ digit_of n }
{
    let low = n % 16;
    if low < 10 {
        b'0' + low
    } else {
        b'A' - 10 + low
    }
}

// Two upper-case hexadecimal digits, as bytes: the kit's hex has upper case as a String alone, and nothing here uses the heap.
pub fn hex(byte: u8) -> [u8; 2]
    ensures { result ≡ hex_of byte }
{
    [digit(byte / 16), digit(byte)]
}
