//! Days of the calendar (RFC 3339, appendix C).

ghost use Rattle.std.specs.Prelude.{◌≡◌, ◌≤◌, ◌<◌, ◌^◌, ◌+◌, ◌*◌, ◌↔◌, IsTrue};
ghost use Rattle.time_text.specs.Calendar.{is_leap, days_of_year, days_of_month, days_before_year, days_before_month};
ghost use Rattle.time_text.specs.Calendar.{day_number, IsDate};

/// A day: the year from 0 on, January is month 1.
#[derive(Clone, Copy, Debug)]
pub struct Date {
    pub year: u64,
    pub month: u64,
    pub day: u64,
}

fn is_leap(year: u64) -> bool
    ensures { result ≡ is_leap year }
{
    year % 4 == 0 && (year % 100 != 0 || year % 400 == 0)
}

/// The days that a month of the year has.
fn days_of_month(year: u64, month: u64) -> u64
    ensures value { result ≡ days_of_month year month }
    ensures within { result ≤ 31 }
{
    match month {
        2 if is_leap(year) => 29,
        2 => 28,
        4 | 6 | 9 | 11 => 30,
        _ => 31,
    }
}

/// The days of the years from 0 on that come before this one.
#[tactic(auto, using(crate::proofs::Years::days_counted))]
fn days_before_year(year: u64) -> u64
    requires { year ≤ 2 ^ 20 }
    ensures value { result ≡ days_before_year year }
    ensures within { result ≤ 366 * year }
{
    365 * year + (year + 3) / 4 + (year + 399) / 400 - (year + 99) / 100
}

/// The days of the year's months that come before this one.
#[tactic(auto, using(crate::proofs::Months::month_end))]
fn days_before_month(year: u64, month: u64) -> u64
    requires from_january { 1 ≤ month }
    requires to_december { month ≤ 12 }
    ensures value { result ≡ days_before_month year month }
    ensures within { result ≤ 31 * month }
{
    let mut days = 0;
    for earlier in 1..month {
        days += days_of_month(year, earlier);
    }
    days
}

/// The year that has the day of this number.
fn year_with(number: u64) -> u64
    requires counted { 1 ≤ number }
    requires within { number ≤ 2 ^ 28 }
    ensures begun { days_before_year result < number }
    ensures not_over { number ≤ days_before_year result + days_of_year result }
{
    let mut year = (number - 1) / 366;
    while days_before_year(year + 1) < number {
        year += 1;
    }
    year
}

/// The month and the day of the month that this day of the year is.
fn month_with(year: u64, day_of_year: u64) -> (u64, u64)
    requires counted { 1 ≤ day_of_year }
    requires within { day_of_year ≤ days_of_year year }
    ensures date { IsDate (record { year = year; month = result.0; day = result.1 }) }
    ensures sum { days_before_month year result.0 + result.1 ≡ day_of_year }
{
    let mut day = day_of_year;
    for month in 1..12 {
        let days = days_of_month(year, month);
        if day <= days {
            return (month, day);
        }
        day -= days;
    }
    (12, day)
}

impl Date {
    /// The day of this number, as `number` counts them.
    pub fn with_number(number: u64) -> Date
        requires counted { 1 ≤ number }
        requires within { number ≤ 2 ^ 28 }
        ensures date { IsDate result }
        ensures number { day_number result ≡ number }
    {
        let year = year_with(number);
        let (month, day) = month_with(year, number - days_before_year(year));
        Date { year, month, day }
    }

    /// Returns whether the calendar has the day.
    pub fn is_real(&self) -> bool
        ensures { IsTrue result ↔ IsDate self.now }
    {
        1 <= self.month
            && self.month <= 12
            && 1 <= self.day
            && self.day <= days_of_month(self.year, self.month)
    }

    /// The days from the first of January of the year 0 to this one, both counted.
    pub fn number(&self) -> u64
        requires date { IsDate self.now }
        requires year { self.now.year ≤ 2 ^ 20 }
        ensures value { result ≡ day_number self.now }
        ensures within { result ≤ 2 ^ 30 }
    {
        days_before_year(self.year) + days_before_month(self.year, self.month) + self.day
    }
}
