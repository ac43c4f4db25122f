// Decimal number fields: digits with no zero in front, but for `0` itself, and a minus before those of a negative number.
#![tactic(auto)]

ghost use Rattle.std.specs.Prelude.{◌≡◌, [], ◌∷◌, Some};
ghost use Rattle.numbers.specs.Fields.{Means, bounded, limited, negative, number_field, numeral, reading, size};

// The size of `i32::MIN`. A larger one lies past any limit, and is refused while it is read.
const LARGEST: u64 = 1 << 31;

// The number that a field writes, if it lies from `low` to `high`.
pub fn read_number(field: &[u8], low: i32, high: i32) -> Option<i32>
    ensures value { result ≡ number_field low high field.now }
    ensures means { Means low high field.now result }
{
    read_signed(field).and_then(|number| within(number, low, high))
}

fn within(number: i64, low: i32, high: i32) -> Option<i32>
    ensures { result ≡ limited low high (Some number) }
{
    i32::try_from(number)
        .ok()
        .filter(|n| (low..=high).contains(n))
}

// The number that a field writes, if its size is at most `LARGEST`.
fn read_signed(field: &[u8]) -> Option<i64>
    ensures { result ≡ bounded (numeral field.now) }
{
    match field {
        [b'-', digits @ ..] => read_negative(digits),
        digits => Some(i64::from(read_unsigned(digits)?)),
    }
}

// The number that digits write after a minus, which zero does not have.
fn read_negative(digits: &[u8]) -> Option<i64>
    ensures { result ≡ bounded (negative digits.now) }
{
    match digits {
        [b'0', ..] => None,
        _ => Some(-i64::from(read_unsigned(digits)?)),
    }
}

// Of all numbers only zero begins with a zero.
fn read_unsigned(digits: &[u8]) -> Option<u32>
    ensures { result ≡ size digits.now }
{
    match digits {
        [] | [b'0', _, ..] => None,
        _ => read_digits(digits),
    }
}

// The number that digits write, with or without zeros in front, if it is at most `LARGEST`.
fn read_digits(digits: &[u8]) -> Option<u32>
    ensures { result ≡ reading 0 digits.now }
{
    let mut number = 0;
    for byte in digits {
        number = append(number, *byte)?;
    }
    Some(number)
}

// The number with one more digit, if it is still at most `LARGEST`.
fn append(number: u32, byte: u8) -> Option<u32>
    ensures { result ≡ reading number (byte ∷ []) }
{
    if !byte.is_ascii_digit() {
        return None;
    }
    let longer = u64::from(number) * 10 + u64::from(byte - b'0');
    if longer > LARGEST {
        return None;
    }
    // Exact, as `LARGEST` fits. `u32::try_from` took twice as long.
    Some(longer as u32)
}

#[cfg(test)]
mod tests {
    use super::*;

    #[test]
    fn reads_canonical_numbers_within_the_limits(rt: HostRuntime) {
        for (field, low, high, number) in [
            (&b"0"[..], 0, 255, Some(0)),
            (b"255", 0, 255, Some(255)),
            (b"256", 0, 255, None),
            (b"-1", 0, 255, None),
            (b"65535", 0, 65535, Some(65535)),
            (b"65536", 0, 65535, None),
            (b"655350", 0, 65535, None),
            (b"2147483647", i32::MIN, i32::MAX, Some(i32::MAX)),
            (b"2147483648", i32::MIN, i32::MAX, None),
            (b"-2147483648", i32::MIN, i32::MAX, Some(i32::MIN)),
            (b"-2147483649", i32::MIN, i32::MAX, None),
            (b"5", 7, 3, None),
        ] {
            assert_eq!(rt; read_number(field, low, high), number);
        }
        for field in [
            &b""[..],
            b"-",
            b"-0",
            b"00",
            b"007",
            b"-01",
            b"+1",
            b"1 ",
            b"1\0",
            b"\xff",
            b"18446744073709551617",
        ] {
            assert_eq!(rt; read_number(field, i32::MIN, i32::MAX), None);
        }
    }
}
