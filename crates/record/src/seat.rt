ghost use Rattle.std.specs.Prelude.{◌<◌};

// A seat of a call, by its place.
#[derive(Clone, Copy)]
pub(crate) struct Seat {
    pub(crate) index: usize,
    ghost one_of_four: { index < 4 },
}
