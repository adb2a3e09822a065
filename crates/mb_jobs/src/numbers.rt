ghost use Rattle.std.specs.Prelude.{◌≡◌, ◌<◌, ◌≤◌, ◌+◌, ◌-◌, ◌*◌, IfSome};
ghost use Rattle.mb_jobs.specs.Numbers.{digits_on, index_in, is_digit, negative, number_below, octal_in, offset_in, short_in};

/// Whether a byte is a digit of a base.
fn is_digit(base: u64, byte: u8) -> bool
    requires { base ≤ 10 }
    ensures { result ≡ is_digit base byte }
{
    b'0' <= byte && u64::from(byte) < 48 + base
}

/// A value with one more digit behind it.
fn with_digit(base: u64, value: u64, digit: u8) -> u64
    requires base { base ≤ 10 }
    requires value { value ≤ 4294967296 }
    requires digit { 48 ≤ digit }
    ensures { result ≡ base * value + (digit - 48) }
{
    base * value + u64::from(digit - b'0')
}

/// The value of some digits of a base, or `None` where another byte stands among them or the value
/// reaches the bound.
fn digits_below(base: u64, bound: u64, text: &[u8]) -> Option<u64>
    requires base { base ≤ 10 }
    requires some { 0 < bound }
    requires bound { bound ≤ 4294967296 }
    ensures exact { result ≡ digits_on base bound 0 text.now }
    ensures below { IfSome result (λ number. number < bound) }
{
    let mut value = 0u64;
    'digits: for digit in text {
        if !is_digit(base, *digit) {
            return None;
        }
        let next = with_digit(base, value, *digit);
        if next >= bound {
            return None;
        }
        value = next;
    }
    Some(value)
}

/// The number that a word writes: `0`, or decimal digits without a leading 0, below the bound.
pub(crate) fn number_below(bound: u64, word: &[u8]) -> Option<u64>
    requires some { 0 < bound }
    requires bound { bound ≤ 4294967296 }
    ensures exact { result ≡ number_below bound word.now }
    ensures below { IfSome result (λ number. number < bound) }
{
    match word {
        [] => None,
        [b'0'] => Some(0),
        [b'0', ..] => None,
        _ => digits_below(10, bound, word),
    }
}

/// A number of at most 65535.
pub(crate) fn short_of(word: &[u8]) -> Option<u16>
    ensures { result ≡ short_in word.now }
{
    match number_below(65536, word) {
        Some(number) => Some(number as u16),
        None => None,
    }
}

/// A number of at most 255.
pub(crate) fn byte_of(word: &[u8]) -> Option<u8>
    ensures { result ≡ number_below 256 word.now }
{
    match number_below(256, word) {
        Some(number) => Some(number as u8),
        None => None,
    }
}

/// A time in seconds, at most 2147483647.
pub(crate) fn time_of(word: &[u8]) -> Option<u32>
    ensures { result ≡ number_below 2147483648 word.now }
{
    match number_below(2147483648, word) {
        Some(number) => Some(number as u32),
        None => None,
    }
}

/// The permissions that `access` tests, 0 to 7.
pub(crate) fn bits_of(word: &[u8]) -> Option<u8>
    ensures { result ≡ number_below 8 word.now }
{
    match number_below(8, word) {
        Some(number) => Some(number as u8),
        None => None,
    }
}

/// The bits of a mode: one to so many octal digits.
pub(crate) fn octal_of(most: usize, word: &[u8]) -> Option<u16>
    ensures { result ≡ octal_in most word.now }
{
    if word.is_empty() || word.len() > most {
        return None;
    }
    match digits_below(8, 4096, word) {
        Some(mode) => Some(mode as u16),
        None => None,
    }
}

/// One of so many places, counted from 1.
pub(crate) fn index_of(count: u32, word: &[u8]) -> Option<u32>
    requires { count ≤ 2147483648 }
    ensures exact { result ≡ index_in count word.now }
    ensures one { IfSome result (λ index. 1 ≤ index) }
    ensures within { IfSome result (λ index. index ≤ count) }
{
    match number_below(u64::from(count) + 1, word) {
        Some(0) => None,
        Some(index) => Some(index as u32),
        None => None,
    }
}

/// An offset of 32 bits: a number, or a `-` and a number other than 0.
pub(crate) fn offset_of(word: &[u8]) -> Option<i32>
    ensures { result ≡ offset_in word.now }
{
    match word {
        [b'-', digits @ ..] => match index_of(2147483648, digits) {
            Some(number) => Some(-i64::from(number) as i32),
            None => None,
        },
        _ => match number_below(2147483648, word) {
            Some(number) => Some(number as i32),
            None => None,
        },
    }
}
