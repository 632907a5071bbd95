// What a program is told of the panel that it starts from: the chip and the three times.
ghost use Rattle.std.specs.Prelude.{◌≡◌};
ghost use Rattle.mirror.specs.Panel.{fresh_panel};

use crate::chips::chip_at;
use crate::print::Stopped;
use crate::times::times_at;
use mirror::panel::{Panel, Times};

#[derive(Clone, Copy)]
pub struct Told {
    pub chip: u8,
    pub times: Times,
}

impl Told {
    // A fresh panel, as it was told.
    pub fn panel(self) -> Panel
        ensures { result ≡ fresh_panel self.chip self.times.reset self.times.long self.times.short }
    {
        let times = self.times;
        Panel::fresh(self.chip, times.reset, times.long, times.short)
    }
}

// By the places of the words that follow `chip` and `times`, where they were given. What is not taken writes one line.
pub fn told_at(
    rt: &HostRuntime,
    program: &[u8],
    chip: Option<usize>,
    times: Option<usize>,
) -> Result<Told, Stopped> {
    Ok(Told {
        chip: chip_at(rt, program, chip)?,
        times: times_at(rt, program, times)?,
    })
}
