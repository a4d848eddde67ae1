// Days of the Gregorian calendar, each the number YYYYMMDD: which are real, the running number by which days are reckoned, and the day
// of such a number.
// Promised, for every number: the definitions of specs/Days.antt, which count years and months by the two rows of month lengths. The
// laws say that real days and their numbers have one order, that the next day has the next number, and that a real day compares with
// the day of a number as its own number does with that one. Stands on `laws` alone.
#![tactic(auto)]

ghost use Rattle.std.specs.Prelude.{◌≡◌, suc, ◌+◌, ◌-◌, ◌≤◌, ◌<◌, take};
ghost use Rattle.laws.specs.Lists.{sum};
ghost use Rattle.days.specs.Days.{is_leap, row, is_real, days_before, day_number, day_of};

#[tactic(auto, unfolding(crate::specs::Days::is_leap))]
fn is_leap(year: u32) -> bool
    ensures { result ≡ is_leap year }
{
    (year % 4 == 0 && year % 100 != 0) || year % 400 == 0
}

// The days of a year before one of its months; past the twelfth, all of them. From March on, five months have 153 days.
fn days_before(leap: bool, month: u32) -> u32
    ensures { (result ≡ sum (take (month - 1) (row leap))) × (result ≤ 366) }
{
    match month {
        0 | 1 => 0,
        2 => 31,
        _ => (153 * month.min(13) - 162) / 5 + u32::from(leap),
    }
}

#[tactic(auto, unfolding(crate::specs::Days::is_real))]
pub fn is_real(day: u32) -> bool
    ensures { result ≡ is_real day }
{
    let year = day / 10000;
    let month = day / 100 % 100;
    let date = day % 100;
    if !(1..=9999).contains(&year) || !(1..=12).contains(&month) || date < 1 {
        return false;
    }
    let leap = is_leap(year);
    days_before(leap, month) + date <= days_before(leap, month + 1)
}

// The days of the years before one.
fn years_before(year: u32) -> u32
    requires { year ≤ 1000000 }
    ensures { (result ≡ days_before year) × (result ≤ 400000000) }
{
    365 * year + (year + 3) / 4 - (year + 99) / 100 + (year + 399) / 400
}

// Real days are as many days apart as their numbers are.
#[tactic(auto, unfolding(crate::specs::Days::day_number))]
pub fn day_number(day: u32) -> u32
    ensures { result ≡ day_number day }
{
    let year = day / 10000;
    let month = day / 100 % 100;
    let leap = is_leap(year);
    years_before(year) + days_before(leap, month) + day % 100
}

// The year of a number, by the mean length of a year: the guess is never too early, and at most a year late.
fn year_of(number: u32) -> u32
    requires { (367 ≤ number) × (number ≤ 3652425) }
    ensures { (1 ≤ result) × (result ≤ 9999) × (days_before result < number) × (number ≤ days_before (suc result)) }
{
    let guess = 400 * (number + 1) / 146097;
    if number <= years_before(guess) {
        guess - 1
    } else {
        guess
    }
}

// The month of a day that is counted from the start of its year. From March on, five months have 153 days.
fn month_of(leap: bool, rest: u32) -> u32
    requires { (1 ≤ rest) × (rest ≤ sum (row leap)) }
    ensures { (1 ≤ result) × (result ≤ 12) × (sum (take (result - 1) (row leap)) < rest) × (rest ≤ sum (take result (row leap))) }
{
    if rest < 32 {
        return 1;
    }
    let spring = days_before(leap, 3);
    if rest <= spring {
        return 2;
    }
    (5 * (rest - spring) + 456) / 153
}

// The real day of a number; 0 where all are later, and the last of all where all are earlier.
pub fn day_of(number: u32) -> u32
    ensures { result ≡ day_of number }
{
    if number < 367 {
        return 0;
    }
    if 3652425 < number {
        return 99991231;
    }
    let year = year_of(number);
    let rest = number - years_before(year);
    let leap = is_leap(year);
    let month = month_of(leap, rest);
    year * 10000 + month * 100 + (rest - days_before(leap, month))
}
