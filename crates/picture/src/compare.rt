// The comparison of two frames.
ghost use Rattle.std.specs.Prelude.{◌≡◌};
ghost use Rattle.picture.specs.Compare.{Compares};

pub use crate::frame::Dot;
use crate::frame::{COLUMNS, Glass, rows};
use chip::sizes::known;
use mirror::answer::Refusal;

// Compares two frames of a chip: answers the first dot, by rows, at which they differ, if there is one.
pub fn compare(chip: u8, a: &[u8], b: &[u8]) -> Result<Option<Dot>, Refusal>
    ensures { Compares chip a.now b.now result }
{
    if !known(chip) {
        return Err(Refusal::Unsound);
    }
    let one = Glass::of(chip, a)?;
    let other = Glass::of(chip, b)?;
    let mut found = None;
    // A loop within a loop, left by a label: a form that the rules name.
    'rows: for row in 0..rows(chip) {
        for column in 0..COLUMNS {
            let at = Dot { row, column };
            if one.lit(at) != other.lit(at) {
                found = Some(at);
                break 'rows;
            }
        }
    }
    Ok(found)
}
