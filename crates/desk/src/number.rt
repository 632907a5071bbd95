// Decimal numbers among the arguments.
ghost use Rattle.std.specs.Prelude.{◌≡◌, ◌≤◌, IfSome};
ghost use Rattle.desk.specs.Number.{decimal_of};
ghost use Rattle.desk.specs.engine.Number.{then_of};

use crate::arguments::argument;

// The number after one more digit; none where it is no digit, or where the number passes `most`.
fn then(value: u64, digit: u8, most: u64) -> Option<u64>
    ensures { result ≡ then_of value digit most }
{
    if !digit.is_ascii_digit() {
        return None;
    }
    let ones = u64::from(digit - b'0');
    let next = value.checked_mul(10)?.checked_add(ones)?;
    if next <= most { Some(next) } else { None }
}

// The number that a word writes: decimal digits alone, at least one, and at most `most`.
#[tactic(auto, using(crate::specs::laws::NumberLaws::read))]
pub fn number_of(word: &[u8], most: u64) -> Option<u64>
    ensures { result ≡ decimal_of word.now most }
{
    if word.is_empty() {
        return None;
    }
    let mut value = 0;
    for digit in word {
        value = then(value, *digit, most)?;
    }
    Some(value)
}

// The number that the argument at a place writes.
#[tactic(auto, using(crate::specs::laws::NumberLaws::bounded))]
pub fn number_at(rt: &HostRuntime, place: usize, most: u64) -> Option<u64>
    ensures { IfSome result (λ n. n ≤ most) }
{
    number_of(argument(rt, place).as_slice(), most)
}
