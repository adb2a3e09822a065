ghost use Rattle.std.specs.Prelude.{◌≡◌, ◌+◌, ◌-◌, ◌*◌, ◌≤◌, ◌<◌};
ghost use Rattle.mb_commands.specs.Words.{digits_on, number_in};

/// The number that a word writes: `0`, or decimal digits without a leading 0, at most 4,294,967,295.
pub(crate) fn number_of(word: &[u8]) -> Option<u32>
    ensures { result ≡ number_in word.now }
{
    match word {
        [] => None,
        [b'0'] => Some(0),
        [b'0', ..] => None,
        _ => digits(word),
    }
}

fn digits(word: &[u8]) -> Option<u32>
    ensures { result ≡ digits_on 0 word.now }
{
    let mut value = 0u32;
    'digits: for digit in word {
        if *digit < b'0' || *digit > b'9' {
            return None;
        }
        let next = 10 * value as u64 + (*digit - b'0') as u64;
        if next > 4_294_967_295 {
            return None;
        }
        value = next as u32;
    }
    Some(value)
}
