// Error 15: the Gregorian calendar of 1900–9999.
ghost use Rattle.std.specs.Prelude.{◌≡◌};
ghost use Rattle.dates.specs.Calendar.{is_leap, days_in, is_day, is_date};

use text::fields;
use text::fields::Columns;

const YEAR: Columns = Columns { first: 1, last: 4 };

const MONTH: Columns = Columns { first: 5, last: 6 };

const DAY: Columns = Columns { first: 7, last: 8 };

// Whether a year is a leap year.
pub fn is_leap(year: u64) -> bool
    ensures { result ≡ is_leap year }
{
    ((year % 4 == 0) & !(year % 100 == 0)) | (year % 400 == 0)
}

// The number of days of a month, by arithmetic on its number: 30, one more in the odd months to July and the even ones from August, two
// less in February, whose leap day comes by the year. A number that is no month's has 31, as in the definition.
pub fn days_in(year: u64, month: u64) -> u64
    ensures { result ≡ days_in year month }
{
    if !((1 <= month) & (month <= 12)) {
        return 31;
    }
    let february = 2 / month % 2;
    let days = 30 + (month + month / 8) % 2 - 2 * february;
    if february == 0 {
        return days;
    }
    if is_leap(year) { days + 1 } else { days }
}

// Whether there is such a day, in the years 1900–9999. No month has fewer than 28 days.
pub fn is_day(year: u64, month: u64, day: u64) -> bool
    ensures { result ≡ is_day year month day }
{
    if !((1 <= month) & (month <= 12)) {
        return false;
    }
    let years = (1900 <= year) & (year <= 9999);
    if day <= 28 {
        return years & (1 <= day);
    }
    years & (day <= days_in(year, month))
}

// Whether s is a date CCYYMMDD.
pub fn is_date(s: &[u8]) -> bool
    ensures { result ≡ is_date s.now }
{
    if !fields::are_digits(s, 8) {
        return false;
    }
    let year = fields::number_at(s, YEAR);
    let month = fields::number_at(s, MONTH);
    let day = fields::number_at(s, DAY);
    is_day(year, month, day)
}
