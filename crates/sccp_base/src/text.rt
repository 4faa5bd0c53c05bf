//! Readers of a text's parts.
ghost use Rattle.std.specs.Prelude.{◌≡◌, ◌≤◌, ◌<◌};
ghost use Rattle.std.specs.Option.{option_map};
ghost use Rattle.sccp_base.specs.Text.{cut_at, decimal_of, byte_of};

/// The text before the first separator, and the text after it. `None` if there is no separator.
pub fn cut(text: &[u8], separator: u8) -> Option<(&[u8], &[u8])>
    ensures { option_map (λ parts. (parts.0.now, parts.1.now)) result ≡ cut_at separator text.now }
{
    for (place, octet) in text.iter().enumerate() {
        if *octet == separator {
            return Some((&text[..place], &text[place + 1..]));
        }
    }
    None
}

/// The number that one to `most` decimal digits spell. Leading zeros are allowed. `None` for another text.
pub fn decimal(text: &[u8], most: usize) -> Option<u64>
    requires { most ≤ 19 }
    ensures { result ≡ decimal_of most text.now }
{
    if text.is_empty() || text.len() > most {
        return None;
    }
    let mut value: u64 = 0;
    for octet in text {
        if !octet.is_ascii_digit() {
            return None;
        }
        value = 10 * value + u64::from(*octet - b'0');
    }
    Some(value)
}

/// A number up to 255 that one to three decimal digits spell, as a subsystem number is written.
pub fn byte(text: &[u8]) -> Option<u8>
    ensures { result ≡ byte_of text.now }
{
    match decimal(text, 3) {
        Some(value) if value < 256 => Some(value as u8),
        _ => None,
    }
}
