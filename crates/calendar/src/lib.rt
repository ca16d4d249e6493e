// FileTime and SysTime as text, over one table of the days before each month.
#![tactic(auto)]

ghost use Rattle.std.specs.Prelude.{◌≡◌, [], ◌∷◌, ◌++◌, ◌+◌, ◌≤◌, ◌<◌, take, get_or};
ghost use Rattle.output.specs.Output.{Wrote};
ghost use Rattle.rules.specs.Numerals.{padded};
ghost use Rattle.rules.specs.Dates.{leap, days_of_month, is_date, is_clock, date_of, clock_text, time_text, file_time, sys_time};
ghost use Rattle.laws.specs.Calendar.{days_of_years};
ghost use Rattle.calendar.specs.Times.{date_in, PutTime};
ghost use Rattle.calendar.specs.Years.{row_of, YearOf};

// The days before each month, and in the whole year: a row for common years, and one for leap years.
const DAYS: [[u64; 13]; 2] = [
    [0, 31, 59, 90, 120, 151, 181, 212, 243, 273, 304, 334, 365],
    [0, 31, 60, 91, 121, 152, 182, 213, 244, 274, 305, 335, 366],
];

#[derive(Clone, Copy)]
struct Date {
    year: u64,
    month: u64,
    day: u64,
}

#[derive(Clone, Copy)]
struct Clock {
    hour: u64,
    minute: u64,
    second: u64,
}

#[derive(Clone, Copy)]
struct Year {
    years: u64,
    rest: u64,
}

// A leap year: divisible by 4, and not by 100 unless by 400.
fn is_leap(y: u64) -> bool
    ensures { result ≡ leap y }
{
    y % 4 == 0 && (y % 100 != 0 || y % 400 == 0)
}

// The m-th entry of a row.
fn days_before(leap: bool, m: usize) -> u64
    requires { m < 13 }
    ensures { result ≡ get_or (row_of leap) m 0 }
{
    if leap {
        return DAYS[1][m];
    }
    DAYS[0][m]
}

// The days of n years from 1601 on.
fn days_of(n: u64) -> u64
    requires { n ≤ 10000 }
    ensures { result ≡ days_of_years n 1601 }
{
    365 * n + n / 4 + n / 400 - n / 100
}

// The years before the year that day d falls into, and the day of that year. A year has 146,097 / 400 days on the average; the
// quotient, taken of two days more, is the year or the one after it.
fn year_of(d: u64) -> Year
    requires { d < 3067671 }
    ensures { YearOf d result.years result.rest }
{
    let n = (400 * d + 800) / 146097;
    let before = days_of(n);
    if before <= d {
        return Year {
            years: n,
            rest: d - before,
        };
    }
    Year {
        years: n - 1,
        rest: d - days_of(n - 1),
    }
}

// The date of the day d, counted from the first of January 1601.
fn date_of(d: u64) -> Date
    requires { d < 3067671 }
    ensures { date_in result ≡ date_of d }
{
    let y = year_of(d);
    let year = 1601 + y.years;
    let rest = y.rest;
    let l = is_leap(year);
    for m in 1..13 {
        if rest < days_before(l, m) {
            return Date {
                year,
                month: m as u64,
                day: rest - days_before(l, m - 1) + 1,
            };
        }
    }
    // the day is one of its year, so the loop ends with December
    unreachable!()
}

// k digits of a, and two of each of b and c, with `mark` before each of these.
fn put_marked(out: &mut [u8], at: usize, mark: u8, k: u8, a: u64, b: u64, c: u64) -> usize
    ensures { Wrote out.old at (padded k a ++ (mark ∷ []) ++ padded 2 b ++ (mark ∷ []) ++ padded 2 c) out.new result }
{
    let first = digits::put_padded(out, at, k, a);
    let second = output::put(out, first, mark);
    let third = digits::put_padded(out, second, 2, b);
    let fourth = output::put(out, third, mark);
    digits::put_padded(out, fourth, 2, c)
}

// `YYYY-MM-DDThh:mm:ss.`, k digits of a fraction, `Z`
fn put_time(out: &mut [u8], at: usize, d: Date, t: Clock, k: u8, fraction: u64) -> usize
    ensures { Wrote out.old at (time_text (date_in d) (clock_text t.hour t.minute t.second) (padded k fraction)) out.new result }
{
    let a = put_marked(out, at, b'-', 4, d.year, d.month, d.day);
    let b = output::put(out, a, b'T');
    let c = put_marked(out, b, b':', 2, t.hour, t.minute, t.second);
    let e = output::put(out, c, b'.');
    let f = digits::put_padded(out, e, k, fraction);
    output::put(out, f, b'Z')
}

// The FileTime in the first 8 bytes of src: the place after its text, or none where it is no time.
pub fn put_file_time(out: &mut [u8], at: usize, src: &[u8]) -> Option<usize>
    ensures { PutTime (file_time (take 8 src.now)) out.old at out.new result }
{
    let n = octets::number_at(src, 0, 8);
    if 2650467743999999999 < n {
        return None;
    }
    let seconds = n / 10000000;
    let clock = Clock {
        hour: seconds / 3600 % 24,
        minute: seconds / 60 % 60,
        second: seconds % 60,
    };
    Some(put_time(out, at, date_of(seconds / 86400), clock, 7, n % 10000000))
}

fn days_of_month(y: u64, m: u64) -> u64
    requires { (1 ≤ m) × (m ≤ 12) }
    ensures { result ≡ days_of_month y m }
{
    let l = is_leap(y);
    let i = m as usize;
    days_before(l, i) - days_before(l, i - 1)
}

// A date from 1601 to 9999, on a real day of its month.
fn is_date(d: Date) -> bool
    ensures { result ≡ is_date (date_in d) }
{
    1601 <= d.year
        && d.year <= 9999
        && 1 <= d.month
        && d.month <= 12
        && 1 <= d.day
        && d.day <= days_of_month(d.year, d.month)
}

// Hour, minute and second below 24, 60, 60.
fn is_clock(t: Clock) -> bool
    ensures { result ≡ is_clock t.hour t.minute t.second }
{
    t.hour < 24 && t.minute < 60 && t.second < 60
}

// The SysTime in eight 2-byte fields of src; the third, the weekday, is not read. There is no place where it is no time.
pub fn put_sys_time(out: &mut [u8], at: usize, src: &[u8]) -> Option<usize>
    ensures { PutTime (sys_time src.now) out.old at out.new result }
{
    let date = Date {
        year: octets::number_at(src, 0, 2),
        month: octets::number_at(src, 2, 2),
        day: octets::number_at(src, 6, 2),
    };
    let clock = Clock {
        hour: octets::number_at(src, 8, 2),
        minute: octets::number_at(src, 10, 2),
        second: octets::number_at(src, 12, 2),
    };
    let ms = octets::number_at(src, 14, 2);
    if !is_date(date) {
        return None;
    }
    if !is_clock(clock) {
        return None;
    }
    if 1000 <= ms {
        return None;
    }
    Some(put_time(out, at, date, clock, 3, ms))
}
