//! Numbers as they are written.
ghost use Rattle.std.specs.Prelude.{◌≡◌, ◌≤◌, ◌+◌, ◌*◌, ◌^◌, ◌∷◌, true, false, length};
ghost use Rattle.std.specs.List.{list_all};
ghost use Rattle.program_tokens.specs.Numbers.{is_digit, digits_after, signed, number_of};

/// The number that a digit and those behind it write, or `None` if they are more than 19 or the
/// number is not in `i64`.
#[tactic(auto, using(crate::proofs::NumberDigits::few_behind), unfolding(crate::specs::Numbers::number_of))]
pub(crate) fn plain_number(first: u8, others: &[u8]) -> Option<i64>
    requires digit { is_digit first ≡ true }
    requires digits { list_all is_digit others.now ≡ true }
    ensures { result ≡ number_of false (first ∷ others.now) }
{
    if others.len() > 18 {
        return None;
    }
    not_negative(digits_after((first - b'0') as u64, others))
}

/// The number that a `-` and these digits write, or `None` if there are none, more than 19, or the
/// number is not in `i64`.
#[tactic(auto, unfolding(crate::specs::Numbers::number_of))]
pub(crate) fn negative_number(digits: &[u8]) -> Option<i64>
    requires { list_all is_digit digits.now ≡ true }
    ensures { result ≡ number_of true digits.now }
{
    if digits.is_empty() || digits.len() > 19 {
        return None;
    }
    negative(digits_after(0, digits))
}

fn not_negative(size: u64) -> Option<i64>
    ensures { result ≡ signed false size }
{
    if size < 1 << 63 {
        Some(size as i64)
    } else {
        None
    }
}

fn negative(size: u64) -> Option<i64>
    ensures { result ≡ signed true size }
{
    if size <= 1 << 63 {
        Some(-(size as i128) as i64)
    } else {
        None
    }
}

/// The number that digits go on to write behind others, which wrote `start`.
fn digits_after(start: u64, digits: &[u8]) -> u64
    requires digits { list_all is_digit digits.now ≡ true }
    requires few { (start + 1) * 10 ^ length digits.now ≤ 10 ^ 19 }
    ensures { result ≡ digits_after start digits.now }
{
    let mut value = start;
    for digit in digits {
        value = value * 10 + (*digit - b'0') as u64;
    }
    value
}
