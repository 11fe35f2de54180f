//! Dates as days, to say how far two of them are apart.

// The days before each month of a year that begins with March.
const BEFORE: [u32; 12] = [0, 31, 61, 92, 122, 153, 184, 214, 245, 275, 306, 337];

// The number that some digits spell; none for another byte.
fn spelled(digits: &[u8]) -> Option<u32> {
    let mut number: u32 = 0;
    for digit in digits {
        if !digit.is_ascii_digit() {
            return None;
        }
        number = number
            .saturating_mul(10)
            .saturating_add(u32::from(digit.saturating_sub(b'0')));
    }
    Some(number)
}

/// The days from the first of March of the year 0 to a date, which is eight digits: year, month and day.
/// None for another text, and for a month or a day that there isn't.
pub fn day_of(date: &[u8]) -> Option<u32> {
    if date.len() != 8 {
        return None;
    }
    let year = spelled(date.get(..4)?)?;
    let month = spelled(date.get(4..6)?)?;
    let day = spelled(date.get(6..)?)?;
    if !(1..=9999).contains(&year) || !(1..=12).contains(&month) || !(1..=31).contains(&day) {
        return None;
    }
    let from_march = month.saturating_add(9) % 12;
    let before = *BEFORE.get(from_march as usize)?;
    let years = if month < 3 {
        year.saturating_sub(1)
    } else {
        year
    };
    let leap_days = (years / 4)
        .saturating_sub(years / 100)
        .saturating_add(years / 400);
    Some(
        years
            .saturating_mul(365)
            .saturating_add(leap_days)
            .saturating_add(before)
            .saturating_add(day.saturating_sub(1)),
    )
}
