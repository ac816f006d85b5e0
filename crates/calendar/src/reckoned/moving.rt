// Where orders lead the reckoned engine, and what it shows.
ghost use Rattle.std.specs.Prelude.{◌≡◌};
ghost use Rattle.engine.specs.Mechanisms.{onward as onward_of};
ghost use Rattle.calendar.specs.Calendar.{numbered, reckoning, reckoned as reckoned_calendar, reckoned_book, reckoned_lawful, EachDayShown, EachYearOpened};

use crate::day::Day;
use crate::reckoned::Reckoned;
use crate::rule::month_length;
use crate::table::{first_day, month_of, month_starts};
use engine::{Answer, Engine, Order, Refusal, Shown, Values, onward, opening, value};

// The last day of the cycle.
const LAST: u16 = 10_631;

impl Reckoned {
    // The calendar at its first day.
    pub fn new() -> Reckoned
        ensures book { reckoned_book result ≡ reckoned_calendar }
        ensures each_day { EachDayShown }
        ensures each_year { EachYearOpened }
    {
        Reckoned::at(Day { number: 1 })
    }

    // The engine standing at a day.
    fn at(day: Day) -> Reckoned
        ensures { result.day.number ≡ day.number }
    {
        let starts = month_starts();
        let month = month_of(starts, day);
        Reckoned {
            day,
            // there are 360 months, so it fits; `try_from` would need a branch that never runs
            month: month as u16,
            day_of_month: day.number + 1 - starts[month],
        }
    }

    // The day to which an order leads. One function for this and the column engine would take where an open leads and the last place as
    // arguments, and be as long.
    fn leads(&self, order: Order) -> Result<Day, Refusal>
        ensures { numbered result ≡ reckoning.leads self.now.day.number order }
    {
        match order {
            Order::Open(argument) => Ok(first_day(opening(30, argument)?)),
            Order::Turn => self.later(1),
            Order::Skip(argument) => self.later(argument),
        }
    }

    // The day so many on from this one.
    fn later(&self, argument: i32) -> Result<Day, Refusal>
        ensures { numbered result ≡ onward_of 10631 self.now.day.number argument }
    {
        let number = onward(LAST, self.day.number, argument)?;
        Ok(Day { number })
    }

    // What the day shows.
    fn values(&self) -> Values
        ensures { result ≡ reckoning.shows self.now.day.number }
    {
        let year = self.month / 12 + 1;
        let month = self.month % 12 + 1;
        Values {
            c1: value(i32::from(self.day.number)),
            c2: value(i32::from(year)),
            c3: value(i32::from(month)),
            c4: value(i32::from(self.day_of_month)),
            c5: value(i32::from(month_length(year, month))),
            c6: None,
        }
    }
}

impl Engine for Reckoned {
    ghost book = { λ e. reckoned_book e };

    ghost lawful = { λ e. reckoned_lawful e };

    fn give(&mut self, order: Order) -> Answer {
        let day = self.leads(order)?;
        *self = Reckoned::at(day);
        Ok(())
    }

    fn show(&self, column: i32) -> Shown {
        self.values().show(column)
    }

    fn would(&self, order: Order) -> Answer {
        self.leads(order)?;
        Ok(())
    }
}
