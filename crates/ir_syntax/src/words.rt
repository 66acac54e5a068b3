//! Words that are names or numbers.
ghost use Rattle.ir_laws.specs.Numeral.{
  each,
  is_digit,
  is_name,
  is_name_byte,
  is_name_start,
  is_numeral,
  name_of,
  number_of,
};
ghost use Rattle.std.specs.Option.{option_map};
ghost use Rattle.std.specs.Prelude.{◌≡◌};

/// The most bytes of a name.
const NAME_BYTES: usize = 64;

fn is_name_start(byte: u8) -> bool
    ensures { result ≡ is_name_start byte }
{
    byte.is_ascii_uppercase() || byte == b'_'
}

fn is_name_byte(byte: u8) -> bool
    ensures { result ≡ is_name_byte byte }
{
    is_name_start(byte) || byte.is_ascii_lowercase() || byte.is_ascii_digit()
}

fn are_name_bytes(text: &[u8]) -> bool
    ensures { result ≡ each is_name_byte text.now }
{
    for byte in text {
        if !is_name_byte(*byte) {
            return false;
        }
    }
    true
}

/// Whether the text is a capital or `_`, and then letters, digits and `_`, of 64 bytes at most.
fn is_name(text: &[u8]) -> bool
    ensures { result ≡ is_name text.now }
{
    match text.split_first() {
        Some((first, rest)) => {
            is_name_start(*first) && are_name_bytes(rest) && text.len() <= NAME_BYTES
        }
        None => false,
    }
}

/// The text, where it is a name.
pub(crate) fn name_of(text: &[u8]) -> Option<&[u8]>
    ensures { option_map (λ name. name.now) result ≡ name_of text.now }
{
    if is_name(text) { Some(text) } else { None }
}

fn are_digits(text: &[u8]) -> bool
    ensures { result ≡ each is_digit text.now }
{
    for byte in text {
        if !byte.is_ascii_digit() {
            return false;
        }
    }
    true
}

/// Whether the text is digits, with no zero before others.
fn is_numeral(text: &[u8]) -> bool
    ensures { result ≡ is_numeral text.now }
{
    match text {
        [] => false,
        [digit] => digit.is_ascii_digit(),
        [first, rest @ ..] => matches!(first, b'1'..=b'9') && are_digits(rest),
    }
}

/// The number of at most 32 bits that the text writes.
pub(crate) fn number_of(text: &[u8]) -> Option<u32>
    ensures { result ≡ number_of text.now }
{
    if !is_numeral(text) {
        return None;
    }
    match str::from_utf8(text) {
        Ok(digits) => digits.parse().ok(),
        Err(_) => None,
    }
}

#[cfg(test)]
mod tests {
    use super::*;
    use std::test::Fail;

    #[test]
    fn numbers_have_no_leading_zero_and_32_bits(rt: HostRuntime) -> Result<(), Fail> {
        let rows: [(&[u8], Option<u32>); 12] = [
            (b"0", Some(0)),
            (b"7", Some(7)),
            (b"10", Some(10)),
            (b"4294967295", Some(4294967295)),
            (b"4294967296", None),
            (b"99999999999999999999", None),
            (b"", None),
            (b"00", None),
            (b"07", None),
            (b"+1", None),
            (b"1_0", None),
            (b"1a", None),
        ];
        for (text, want) in rows {
            assert_eq!(rt; number_of(text), want);
        }
        Ok(())
    }
}
