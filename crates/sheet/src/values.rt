ghost use Rattle.std.specs.Prelude.{◌≡◌, ◌^◌, ◌<◌, IfSome};
ghost use Rattle.sheet.specs.Values.{magnitude_of, value_of};

// A value has this many digits at most.
const MOST_DIGITS: usize = 7;

// The number that a part is, if it is a value: digits, or a minus and digits.
pub fn value(part: &[u8]) -> Option<i32>
    ensures { result ≡ value_of part.now }
{
    match part.split_first() {
        Some((b'-', digits)) => magnitude(digits).map(|n| -(n as i32)),
        _ => magnitude(part).map(|n| n as i32),
    }
}

// The number that one to seven digits are in base ten.
fn magnitude(digits: &[u8]) -> Option<u32>
    ensures value { result ≡ magnitude_of digits.now }
    ensures small { IfSome result (λ n. n < 2 ^ 31) }
{
    if digits.is_empty() || digits.len() > MOST_DIGITS {
        return None;
    }
    let mut number: u32 = 0;
    for digit in digits {
        if !digit.is_ascii_digit() {
            return None;
        }
        number = 10 * number + u32::from(*digit - b'0');
    }
    Some(number)
}
