// Decides which numbers are dates, written mmddyyyy, and which dates are business dates.
#![tactic(auto)]

ghost use Rattle.std.specs.Prelude.{◌≡◌, true, false, ◌-◌, ◌≤◌, eqb};
ghost use Rattle.lists.specs.Lists.{any};
ghost use Rattle.calendar.specs.Calendar.{leap, month_of, day_of, year_of, days_of_month, days_of_months, is_date, weekday_of, business_date};

const FIRST_YEAR: u64 = 1990;

const LAST_YEAR: u64 = 2099;

const MONTHS: u64 = 12;

const FEBRUARY: u64 = 2;

// The places of mmddyyyy: the month stands above 1000000, the day above 10000.
const MONTH_PLACE: u64 = 1000000;

const DAY_PLACE: u64 = 10000;

const DAY_DIGITS: u64 = 100;

const DAYS_OF_COMMON_YEAR: u64 = 365;

const DAYS_OF_WEEK: u64 = 7;

// Monday to Friday; Monday is 0.
const WORKDAYS: u64 = 5;

// What a number says that reads mmddyyyy.
#[derive(Clone, Copy)]
struct Date {
    month: u64,
    day: u64,
    year: u64,
}

fn date_of(n: u64) -> Date
    ensures { result ≡ record { month = month_of n; day = day_of n; year = year_of n } }
{
    Date {
        month: n / MONTH_PLACE,
        day: n / DAY_PLACE % DAY_DIGITS,
        year: n % DAY_PLACE,
    }
}

fn is_leap(year: u64) -> bool
    ensures { result ≡ leap year }
{
    year % 4 == 0 && (year % 100 != 0 || year % 400 == 0)
}

fn days_of_month(leap: bool, month: u64) -> u64
    ensures { result ≡ days_of_month leap month }
{
    match month {
        FEBRUARY if leap => 29,
        FEBRUARY => 28,
        4 | 6 | 9 | 11 => 30,
        _ => 31,
    }
}

// Whether a number is a date from 1990 to 2099.
#[tactic(auto, unfolding(crate::specs::Calendar::is_date))]
pub fn is_date(n: u64) -> bool
    ensures { result ≡ is_date n }
{
    let Date { month, day, year } = date_of(n);
    FIRST_YEAR <= year
        && year <= LAST_YEAR
        && 1 <= month
        && month <= MONTHS
        && 1 <= day
        && day <= days_of_month(is_leap(year), month)
}

// The days of a common year before a month.
fn common_days_before(month: u64) -> u64
    requires { (1 ≤ month) × (month ≤ 12) }
    ensures { (result ≡ days_of_months false (month - 1)) × (result ≤ 334) }
{
    match month {
        1 => 0,
        2 => 31,
        3 => 59,
        4 => 90,
        5 => 120,
        6 => 151,
        7 => 181,
        8 => 212,
        9 => 243,
        10 => 273,
        11 => 304,
        _ => 334,
    }
}

#[tactic(auto, using(crate::proofs::Days::leap_months))]
fn days_before(leap: bool, month: u64) -> u64
    requires { (1 ≤ month) × (month ≤ 12) }
    ensures { (result ≡ days_of_months leap (month - 1)) × (result ≤ 335) }
{
    common_days_before(month) + u64::from(leap && FEBRUARY < month)
}

// The day of the week of a date. From 1990 on every fourth year has a day more, since 2000 is a leap year.
#[tactic(auto, using(crate::proofs::Days::parts, crate::proofs::Days::weekday_is))]
fn weekday(n: u64) -> u64
    requires { is_date n ≡ true }
    ensures { result ≡ weekday_of n }
{
    let Date { month, day, year } = date_of(n);
    let years = year - FIRST_YEAR;
    let before = days_before(is_leap(year), month);
    (years * DAYS_OF_COMMON_YEAR + (years + 1) / 4 + before + (day - 1)) % DAYS_OF_WEEK
}

fn is_listed(n: u64, holidays: &[u32]) -> bool
    ensures { result ≡ any (eqb n) holidays.now }
{
    holidays.iter().any(|day| n == u64::from(*day))
}

// Whether a number is a business date, with these holidays.
#[tactic(auto, unfolding(crate::specs::Calendar::business_date))]
pub fn business_date(n: u64, holidays: &[u32]) -> bool
    ensures { result ≡ business_date n holidays.now }
{
    is_date(n) && weekday(n) < WORKDAYS && !is_listed(n, holidays)
}
