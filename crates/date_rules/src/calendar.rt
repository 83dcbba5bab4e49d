ghost use Rattle.std.specs.Prelude.{◌≡◌, ◌≤◌, IfSome};
ghost use Rattle.jiff_core.specs.Calendar.{IsEpochDay};
ghost use Rattle.date_rules.specs.Calendar.{day_number};

use jiff_core::civil::Date;

/// The number of a day, if the calendar has it: 0 for 1970-01-01, and negative before it.
pub fn day_number(year: u16, month: u8, day: u8) -> Option<i32>
    requires year_digits { year ≤ 9999 }
    requires month_digits { month ≤ 99 }
    requires day_digits { day ≤ 99 }
    ensures value { result ≡ day_number year month day }
    ensures bound { IfSome result IsEpochDay }
{
    if year == 0 {
        return None;
    }
    match Date::new(year as i16, month as i8, day as i8) {
        Ok(date) => Some(date.to_unix_epoch_day()),
        Err(_) => None,
    }
}
