// The engine that reckons its days.
ghost use Rattle.std.specs.Prelude.{◌≡◌};
ghost use Rattle.calendar.specs.Months.{place, lengths};

use crate::day::Day;

mod moving;

// It holds where it stands, so that showing a page needs no search: the day of the cycle, the month of the cycle (counted from 0)
// and the day of that month.
#[derive(Drop)]
pub struct Reckoned {
    day: Day,
    month: u16,
    day_of_month: u16,
    ghost placed: { month ≡ (place lengths day.number).month },
    ghost dated: { day_of_month ≡ (place lengths day.number).day },
}
