// The panel: the sheet with its busy end, waiting half, execution times and last time.
ghost use Rattle.std.specs.Prelude.{◌≡◌};
ghost use Rattle.mirror.specs.Panel.{fresh_panel, half_fits, sound_panel};

use crate::half::Half;
use chip::sheet::Sheet;
use framing::front::TIME_END;

// A busy end is at most the longest span after such a time.
const BUSY_END: u64 = TIME_END + 65536;

// Microseconds.
#[derive(Clone, Copy)]
pub struct Times {
    pub reset: u16,
    pub long: u16,
    pub short: u16,
}

#[derive(Clone, Copy)]
pub struct Panel {
    pub sheet: Sheet,
    pub busy: u64,
    pub half: Half,
    pub times: Times,
    pub last: u64,
}

impl Half {
    // Whether this half may wait at the width.
    pub fn fits(self, eight: bool) -> bool
        ensures { result ≡ half_fits eight self }
    {
        match self {
            Half::Empty => true,
            Half::Ignored { rs, rw } => !eight && (rs || !rw),
            Half::Waiting { nibble, .. } => !eight && nibble < 16,
        }
    }
}

impl Panel {
    // A fresh panel of any chip's number; one of an unknown chip is not sound, and every call refuses it.
    pub fn fresh(chip: u8, reset: u16, long: u16, short: u16) -> Panel
        ensures { result ≡ fresh_panel chip reset long short }
    {
        Panel {
            sheet: Sheet::fresh(chip),
            busy: 0,
            half: Half::Empty,
            times: Times { reset, long, short },
            last: 0,
        }
    }

    pub fn sound(self) -> bool
        ensures { result ≡ sound_panel self }
    {
        self.sheet.sound()
            && self.half.fits(self.sheet.registers.eight)
            && self.last < TIME_END
            && self.busy < BUSY_END
    }
}
