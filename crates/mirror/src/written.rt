// Which places of display memory are written.
ghost use Rattle.mirror.specs.Written.{Tells};

use crate::answer::Refusal;
use crate::panel::Panel;

impl Panel {
    // One bit for each display address, the lowest for address 0: 1 exactly when its byte isn't 20h. They are the bits that the
    // panel keeps: of a sound one they are what a walk over its display memory answers.
    pub fn written(self) -> Result<u32, Refusal>
        ensures { Tells self result }
    {
        if !self.sound() {
            return Err(Refusal::Unsound);
        }
        Ok(self.sheet.registers.written)
    }
}
