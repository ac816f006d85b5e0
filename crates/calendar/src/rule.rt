// How long a month is, by the calendar's own rule; no editor's rule is meant.
ghost use Rattle.std.specs.Prelude.{◌≡◌};
ghost use Rattle.calendar.specs.Months.{leap as leap_year, days_in};

// Month 12 has 30 days in these years.
fn leap(year: u16) -> bool
    ensures { result ≡ leap_year year }
{
    matches!(year, 2 | 5 | 7 | 10 | 13 | 16 | 18 | 21 | 24 | 26 | 29)
}

// The days in a month of a year.
pub(crate) fn month_length(year: u16, month: u16) -> u16
    ensures { result ≡ days_in year month }
{
    if month % 2 == 1 || month == 12 && leap(year) {
        30
    } else {
        29
    }
}
