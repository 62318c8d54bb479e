ghost use Rattle.std.specs.Prelude.{◌+◌, ◌^◌, ◌<◌};

// The seconds that pass from a clock value on.
#[derive(Clone, Copy)]
pub(crate) struct Stretch {
    pub(crate) from: u32,
    pub(crate) seconds: u32,
    ghost ends: { from + seconds < 2 ^ 32 },
}
