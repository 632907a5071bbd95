// A transfer that is neither bad nor back.
ghost use Rattle.std.specs.Prelude.{◌<◌};
ghost use Rattle.mirror.specs.Panel.{time_end};

#[derive(Clone, Copy)]
pub(crate) struct Transfer {
    pub time: u64,
    pub rs: bool,
    pub rw: bool,
    pub data: u8,
    ghost in_time: { time < time_end },
}
