// Dates from 1 January 2000 to 31 December 2099, and recording days (Q-4).
#![tactic(auto)]

ghost use Rattle.std.specs.Prelude.{◌≡◌, true, false, ◌+◌, ◌<◌, ◌≤◌};
ghost use Rattle.calendar.specs.Dates.{leap as leapYear, month_days};
ghost use Rattle.calendar.specs.Days.{noon, days_of};
ghost use Rattle.calendar.specs.Counting.{in_calendar, before, days_of_years, days_of_months, last_number, day_number, window_of, in_window};

// A date as a caller gives it; it need not exist. The order is that of the calendar.
#[repr(C)]
#[derive(Clone, Copy, PartialEq, Eq, PartialOrd, Ord)]
pub struct Date {
    pub year: u16,
    pub month: u8,
    pub day: u8,
}

// A first and a last date.
#[repr(C)]
#[derive(Clone, Copy)]
pub struct Dates {
    pub first: Date,
    pub last: Date,
}

// The stamps from one up to, not including, another.
#[derive(Clone, Copy)]
pub struct Window {
    pub from: u32,
    pub until: u32,
}

// The first and the last year of the calendar, and the one that numbers are counted from.
const FIRST_YEAR: u16 = 2000;

const LAST_YEAR: u16 = 2099;

const COUNTED_FROM: u32 = FIRST_YEAR as u32;

// The last month.
const DECEMBER: u8 = 12;

// Noon, and the length of a day, in seconds.
const NOON: u32 = 43200;

const DAY: u32 = 86400;

#[tactic(auto, unfolding(crate::specs::Dates::leap))]
fn leap(year: u16) -> bool
    ensures { result ≡ leapYear year }
{
    year % 400 == 0 || (year % 100 != 0 && year % 4 == 0)
}

#[tactic(auto, using(crate::proofs::CodeLaws::february, crate::proofs::CodeLaws::month_of_30, crate::proofs::CodeLaws::month_of_31, crate::proofs::CodeLaws::no_month),)]
fn month_days(long: bool, month: u8) -> u8
    ensures { result ≡ month_days long month }
{
    match month {
        1 | 3 | 5 | 7 | 8 | 10 | 12 => 31,
        4 | 6 | 9 | 11 => 30,
        2 => if long { 29 } else { 28 },
        _ => 0,
    }
}

// The date exists and lies in 2000 to 2099.
#[tactic(auto, unfolding(crate::specs::Counting::in_calendar))]
pub fn in_calendar(date: Date) -> bool
    ensures { result ≡ in_calendar date }
{
    (FIRST_YEAR..=LAST_YEAR).contains(&date.year)
        && (1..=DECEMBER).contains(&date.month)
        && (1..=month_days(leap(date.year), date.month)).contains(&date.day)
}

// One date comes before another; neither need exist.
#[tactic(auto, unfolding(crate::specs::Counting::before))]
pub fn comes_before(a: Date, b: Date) -> bool
    ensures { result ≡ before a b }
{
    a < b
}

// The days of the first `years` years, of which every fourth is a leap year, the first one too.
#[tactic(auto, using(crate::proofs::CodeLaws::years_counted))]
fn days_of_years(years: u32) -> u32
    requires { years < 100 }
    ensures value { result ≡ days_of_years years }
    ensures upper_bound { result ≤ 36160 }
{
    365 * years + (years + 3) / 4
}

// The days of the months before `month`.
#[tactic(auto, using(crate::proofs::CodeLaws::months_long, crate::proofs::CodeLaws::months_short, crate::proofs::CodeLaws::months_early, crate::proofs::CodeLaws::months_most),)]
fn days_of_months(long: bool, month: u8) -> u32
    requires { month ≤ 12 }
    ensures value { result ≡ days_of_months long month }
    ensures upper_bound { result ≤ 335 }
{
    let earlier: [u32; 13] = [0, 0, 31, 59, 90, 120, 151, 181, 212, 243, 273, 304, 334];
    let days = earlier[usize::from(month)];
    if long && month > 2 { days + 1 } else { days }
}

// The number of a date, counted from 1 January 2000; 0 for one that is not in the calendar.
// Kept: a number and no Option, since the clause `value` of day_number gives every date one.
#[tactic(auto, using(crate::proofs::CodeLaws::number_none, crate::proofs::CodeLaws::number_some))]
pub fn day_number(date: Date) -> u32
    ensures value { result ≡ day_number date }
    ensures upper_bound { result ≤ last_number }
{
    if !in_calendar(date) {
        return 0;
    }
    let years = days_of_years(u32::from(date.year) - COUNTED_FROM);
    let months = days_of_months(leap(date.year), date.month);
    years + months + (u32::from(date.day) - 1)
}

// Noon of the day with a number, in seconds since 1 January 2000 00:00.
fn noon_of(number: u32) -> u32
    requires { number ≤ last_number + 1 }
    ensures { result ≡ noon number }
{
    NOON + DAY * number
}

// The window of the recording days from a first to a last date, or none, which lets every stamp pass, where no dates are given. A date that is not in
// the calendar counts as the first one that is: callers refuse it before.
pub fn window_of(dates: Option<Dates>) -> Option<Window>
    ensures { result ≡ window_of (days_of dates) }
{
    let dates = dates?;
    let from = noon_of(day_number(dates.first));
    let until = noon_of(day_number(dates.last) + 1);
    Some(Window { from, until })
}

// Whether a stamp lies in a window; without one every stamp does.
#[tactic(auto, unfolding(crate::specs::Counting::in_window))]
pub fn in_window(window: Option<Window>, stamp: u32) -> bool
    ensures { result ≡ in_window window stamp }
{
    match window {
        None => true,
        Some(window) => window.from <= stamp && stamp < window.until,
    }
}
