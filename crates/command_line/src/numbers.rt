//! A number as a word.

ghost use Rattle.std.specs.Prelude.{◌≡◌, ◌+◌, ◌*◌, ◌≤◌, IfSome, true};
ghost use Rattle.std.specs.Char.{is_ascii_digit, digit_value};
ghost use Rattle.std.specs.List.{list_all};
ghost use Rattle.std.specs.Str.Parse.{digits_value_after};
ghost use Rattle.command_line.specs.Numbers.{has_no_leading_zero, is_number, if_fits, number_in};

fn has_no_leading_zero(text: &[u8]) -> bool
    ensures { result ≡ has_no_leading_zero text.now }
{
    match text {
        [] => false,
        [_] => true,
        [first, _, ..] => *first != b'0',
    }
}

fn are_digits(text: &[u8]) -> bool
    ensures { result ≡ list_all is_ascii_digit text.now }
{
    text.iter().all(|byte| byte.is_ascii_digit())
}

fn is_number(text: &[u8]) -> bool
    ensures { result ≡ is_number text.now }
{
    has_no_leading_zero(text) && are_digits(text)
}

/// The number with a digit more.
fn with_digit(value: u64, byte: u8) -> Option<u64>
    requires { is_ascii_digit byte ≡ true }
    ensures { result ≡ if_fits (value * 10 + digit_value byte) }
{
    let digit = u64::from(byte - b'0');
    if value <= (u64::MAX - digit) / 10 {
        Some(value * 10 + digit)
    } else {
        None
    }
}

/// The number with these digits more.
fn with_digits(value: u64, digits: &[u8]) -> Option<u64>
    requires { list_all is_ascii_digit digits.now ≡ true }
    ensures { result ≡ if_fits (digits_value_after 10 value digits.now) }
{
    match digits {
        [] => Some(value),
        [first, rest @ ..] => match with_digit(value, *first) {
            Some(value) => with_digits(value, rest),
            None => None,
        },
    }
}

/// The number from `least` to `most` that a word spells: digits without a sign and without leading zeros.
#[tactic(auto, unfolding(crate::specs::Numbers::number_in))]
pub fn number_in(least: u64, most: u64, text: &[u8]) -> Option<u64>
    ensures number { result ≡ number_in least most text.now }
    ensures within { IfSome result (λ number. (least ≤ number) × (number ≤ most)) }
{
    if !is_number(text) {
        return None;
    }
    let number = with_digits(0, text)?;
    if least <= number && number <= most {
        Some(number)
    } else {
        None
    }
}
