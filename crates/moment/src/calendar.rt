ghost use Rattle.std.specs.Prelude.{◌≡◌, ◌↔◌, ◌+◌, ◌≤◌, ◌&&◌, nat_le, IsTrue, All, length};
ghost use Rattle.std.specs.Char.{IsAsciiDigit};
ghost use Rattle.moment.specs.Moment.{pair_at, year_of};
ghost use Rattle.moment.specs.Calendar.{is_digits, is_day, is_long_date, is_short_date, is_date, is_time};

use jiff::civil::Date;

/// Whether a text is digits alone; the empty one is.
pub fn is_digits(text: &[u8]) -> bool
    ensures test { result ≡ is_digits text.now }
    ensures each { IsTrue result ↔ All IsAsciiDigit text.now }
{
    text.iter().all(|b| b.is_ascii_digit())
}

/// The number that the two digits at a place spell.
fn pair(text: &[u8], place: usize) -> u8
    requires digits { All IsAsciiDigit text.now }
    requires within { place + 2 ≤ length text.now }
    ensures value { result ≡ pair_at text.now place }
    ensures bound { result ≤ 99 }
{
    10 * (text[place] - b'0') + (text[place + 1] - b'0')
}

/// The year CCYY that a text of digits begins with.
fn year(text: &[u8]) -> u16
    requires digits { All IsAsciiDigit text.now }
    requires within { 4 ≤ length text.now }
    ensures value { result ≡ year_of text.now }
    ensures bound { result ≤ 9999 }
{
    100 * u16::from(pair(text, 0)) + u16::from(pair(text, 2))
}

/// Whether the calendar has the day.
fn is_day(year: u16, month: u8, day: u8) -> bool
    requires year { year ≤ 9999 }
    requires month { month ≤ 99 }
    requires day { day ≤ 99 }
    ensures { result ≡ is_day year month day }
{
    Date::new(year as i16, month as i8, day as i8).is_ok()
}

fn is_long_date(text: &[u8]) -> bool
    requires { All IsAsciiDigit text.now }
    ensures { result ≡ is_long_date text.now }
{
    if text.len() != 8 {
        return false;
    }
    let year = year(text);
    year >= 1 && is_day(year, pair(text, 4), pair(text, 6))
}

fn is_short_date(text: &[u8]) -> bool
    requires { All IsAsciiDigit text.now }
    ensures { result ≡ is_short_date text.now }
{
    text.len() == 6
        && is_day(
            2000 + u16::from(pair(text, 0)),
            pair(text, 2),
            pair(text, 4),
        )
}

/// Whether a text is a date that there is: CCYYMMDD of the years 0001 to 9999, or YYMMDD of the years 2000 to 2099.
pub fn is_date(text: &[u8]) -> bool
    ensures { result ≡ is_date text.now }
{
    is_digits(text) && (is_long_date(text) || is_short_date(text))
}

fn is_hour_and_minute(text: &[u8]) -> bool
    requires digits { All IsAsciiDigit text.now }
    requires within { 4 ≤ length text.now }
    ensures { result ≡ nat_le (pair_at text.now 0) 23 && nat_le (pair_at text.now 2) 59 }
{
    pair(text, 0) <= 23 && pair(text, 2) <= 59
}

/// Whether a text is a time of day: HHMM, HHMMSS, HHMMSSD or HHMMSSDD.
pub fn is_time(text: &[u8]) -> bool
    ensures { result ≡ is_time text.now }
{
    if !is_digits(text) {
        return false;
    }
    match text.len() {
        4 => is_hour_and_minute(text),
        6..=8 => pair(text, 4) <= 59 && is_hour_and_minute(text),
        _ => false,
    }
}
