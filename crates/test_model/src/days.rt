// The recording days of a question, by their numbers from 1 January 2000 on, and the dates that name them, found month by month.
ghost use Rattle.std.specs.Prelude.{◌<◌, ◌≤◌};

use crate::numbers::next;
use calendar::{Date, Dates};

// The days from one to another.
#[derive(Clone, Copy)]
pub struct Days {
    pub first: u32,
    pub last: u32,
}

// 1 January 2000.
pub const FIRST_DAY: Days = Days { first: 0, last: 0 };

// Noon, and the length of a day, in seconds.
const NOON: u32 = 43200;

const DAY: u32 = 86400;

// The days from 1 January 2000 to 31 December 2099 are 487 parts of 75. Stamps are drawn at the noons
// between parts and at both ends, so that some lie at the very ends of the days asked for.
const CENTURY: u32 = 36525;

const PART: u32 = 75;

const PART_END: u32 = PART - 1;

const PART_SECONDS: u32 = DAY * PART;

// A stamp at the noon where a part begins or the last one ends, or a second before.
pub fn noon_stamp(n: u64) -> u32 {
    let part = (n / 2 % 488) as u32;
    NOON + PART_SECONDS * part - (n % 2) as u32
}

impl Days {
    // From the lower of two numbers to the other.
    fn between(a: u32, b: u32) -> Days {
        Days {
            first: a.min(b),
            last: a.max(b),
        }
    }

    // The days of a question: of half the questions all days of the parts from one to another, of a quarter each the first or the last day of a
    // part, and any days.
    pub fn drawn(seed: u64) -> Days {
        let n = next(seed);
        let a = (n / 4 % 487) as u32;
        let b = (n / 2048 % 487) as u32;
        match n % 4 {
            0 => {
                let day = PART * a + PART_END * (b % 2);
                Days::between(day, day)
            }
            1 => Days::between(n as u32 % CENTURY, next(n) as u32 % CENTURY),
            _ => Days {
                first: PART * a.min(b),
                last: PART * a.max(b) + PART_END,
            },
        }
    }

    // Whether a stamp lies in one of the days: before the first noon it lies in none.
    pub fn hold(&self, stamp: u32) -> bool {
        NOON <= stamp && (self.first..=self.last).contains(&((stamp - NOON) / DAY))
    }

    // The first date and the last.
    pub fn dates(&self) -> Dates {
        Dates {
            first: date_of(self.first),
            last: date_of(self.last),
        }
    }
}

// The length of a month, counted from January 2000 on: February 2000 and every 48th after it has 29 days.
fn month_length(month: u32) -> u32
    ensures { (28 ≤ result) × (result ≤ 31) }
{
    match month % 12 {
        1 if month % 48 == 1 => 29,
        1 => 28,
        turn => 31 - turn % 7 % 2,
    }
}

// The date of the day with a number.
fn date_of(number: u32) -> Date {
    let mut rest = number % CENTURY;
    let mut month = 0;
    while let Some(left) = rest.checked_sub(month_length(month)) {
        rest = left;
        month += 1;
    }
    Date {
        year: (2000 + month / 12) as u16,
        month: (month % 12 + 1) as u8,
        day: (rest + 1) as u8,
    }
}
