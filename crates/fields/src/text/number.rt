//! Decimal numbers, read from text.
ghost use Rattle.std.specs.Prelude.{◌≡◌, ℕ, ◌<◌, ◌≤◌, length, Option, Some, None, IfSome};
ghost use Rattle.fields.specs.text.Number.{IsNumber, has_number_form, number_from, number_of, number_to};

fn has_number_form(text: &[u8]) -> bool
    ensures { result ≡ has_number_form text.now }
{
    !text.is_empty() && text.len() <= 9 && (text.len() == 1 || text[0] != b'0')
}

fn value_of(text: &[u8]) -> Option<u32>
    requires { length text.now ≤ 9 }
    ensures { result ≡ number_from 0 text.now }
{
    let mut value = 0u32;
    for byte in text {
        if !byte.is_ascii_digit() {
            return None;
        }
        value = value * 10 + u32::from(*byte - b'0');
    }
    Some(value)
}

/// The number that a text writes: `0`, or 1 to 9 decimal digits of which the first isn't `0`. No other text writes a
/// number.
#[tactic(auto, unfolding(crate::specs::text::Number::number_of))]
pub fn read_number(text: &[u8]) -> Option<u32>
    ensures value { result ≡ number_of text.now }
    ensures sound { IfSome result (λ n. IsNumber text.now n) }
    ensures complete { (n : ℕ) → IsNumber text.now n → result ≡ Some n }
{
    if has_number_form(text) {
        value_of(text)
    } else {
        None
    }
}

/// The number that a text writes (`read_number`), where it is at most `top`.
#[tactic(auto, unfolding(crate::specs::text::Number::number_to))]
pub fn read_number_to(text: &[u8], top: u32) -> Option<u32>
    ensures value { result ≡ number_to top text.now }
    ensures sound { IfSome result (λ n. IsNumber text.now n × (n ≤ top)) }
    ensures complete { (n : ℕ) → IsNumber text.now n → n ≤ top → result ≡ Some n }
{
    let n = read_number(text)?;
    if n <= top { Some(n) } else { None }
}
