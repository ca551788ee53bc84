// Numbers of at most 19 digits, each read in one loop.
ghost use Rattle.std.specs.Prelude.{◌≡◌, ◌≤◌, ◌^◌, ℕ, length, Some, None, if◌then◌else◌};
ghost use Rattle.std.specs.List.{list_all};
ghost use Rattle.std.specs.Char.{is_ascii_digit};
ghost use Rattle.dvs_base.specs.Text.{number_below, number_after, starts_number};
ghost use Rattle.dvs_base.specs.declared.digits.TheConstants.{SAFE_DIGITS};

/// Any number of this many digits is below 2^64.
pub(crate) const SAFE_DIGITS: usize = 19;

// The number that the digits spell, and None if a byte is no digit.
fn digits_in(bytes: &[u8]) -> Option<u64>
    requires { length bytes.now ≤ SAFE_DIGITS }
    ensures { result ≡ (if list_all is_ascii_digit bytes.now then Some (number_after 0 bytes.now) else None) }
{
    let mut value: u64 = 0;
    for c in bytes {
        if !c.is_ascii_digit() {
            return None;
        }
        value = value * 10 + (*c - b'0') as u64;
    }
    Some(value)
}

// Whether the bytes can start a number.
pub(crate) fn starts_number(bytes: &[u8]) -> bool
    ensures { result ≡ starts_number bytes.now }
{
    match bytes {
        [] => false,
        [_] => true,
        [c, ..] => *c != b'0',
    }
}

/// The number that at most 19 bytes spell in decimal digits, without a leading zero except `0` itself.
pub(crate) fn short_number(bytes: &[u8]) -> Option<u64>
    requires { length bytes.now ≤ SAFE_DIGITS }
    ensures { (limit : ℕ) → 10 ^ SAFE_DIGITS ≤ limit → result ≡ number_below limit bytes.now }
{
    if starts_number(bytes) {
        digits_in(bytes)
    } else {
        None
    }
}
