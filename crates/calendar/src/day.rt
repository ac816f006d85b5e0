// The days of the cycle.
ghost use Rattle.std.specs.Prelude.{◌≤◌};

// A day of the cycle, by its number.
#[derive(Clone, Copy)]
pub(crate) struct Day {
    pub number: u16,
    ghost from: { 1 ≤ number },
    ghost to: { number ≤ 10631 },
}
