//! Decimal numbers as text.

ghost use Rattle.std.specs.Prelude.{◌≡◌, ◌<◌, ◌^◌, ◌↔◌, ℕ, IsTrue, IfSome, IfNone, decimal};
ghost use Rattle.std.specs.Str.Parse.{AllDigits, digits_value};
ghost use Rattle.hr_base.specs.Decimals.{BeginsAsNumber};

/// The number that a text spells in decimal without leading zeros.
pub fn read_decimal(text: &[u8]) -> Option<u64>
    ensures found { IfSome result (λ n. text.now ≡ decimal n) }
    ensures none { IfNone result ((n : ℕ) → n < 2 ^ 64 → text.now ≡ decimal n → ⊥) }
{
    if begins_as_number(text) {
        read_digits(text)
    } else {
        None
    }
}

// Whether a text is not empty, and no zero leads more digits.
fn begins_as_number(text: &[u8]) -> bool
    ensures { IsTrue result ↔ BeginsAsNumber text.now }
{
    match text {
        [] => false,
        [first, rest @ ..] => *first != b'0' || rest.is_empty(),
    }
}

// The value of decimal digits, where it fits.
fn read_digits(digits: &[u8]) -> Option<u64>
    ensures found { IfSome result (λ n.
        AllDigits 10 digits.now × (digits_value 10 digits.now ≡ n) × (n < 2 ^ 64)) }
    ensures none { IfNone result (AllDigits 10 digits.now → digits_value 10 digits.now < 2 ^ 64 → ⊥) }
{
    let mut value: u64 = 0;
    for digit in digits {
        if !digit.is_ascii_digit() {
            return None;
        }
        value = value
            .checked_mul(10)?
            .checked_add(u64::from(*digit - b'0'))?;
    }
    Some(value)
}
