//! Numbers as words.

ghost use Rattle.std.specs.Prelude.{◌≡◌};
ghost use Rattle.std.specs.List.{list_all};
ghost use Rattle.mp_term.specs.Signature.{is_digit, is_number};
ghost use Rattle.mp_words.specs.Words.{number_in};

// The greatest number of digits that are read.
const MOST_DIGITS: usize = 10;

// The bytes are digits.
fn all_digits(bytes: &[u8]) -> bool
    ensures { result ≡ list_all is_digit bytes.now }
{
    bytes.iter().all(|byte| byte.is_ascii_digit())
}

// Digits alone, and at least one.
fn is_number(bytes: &[u8]) -> bool
    ensures { result ≡ is_number bytes.now }
{
    !bytes.is_empty() && all_digits(bytes)
}

// The number that 1 to 10 digits write, where it is in the range.
pub(crate) fn read_number(text: &str, least: u32, most: u32) -> Option<u32>
    ensures { result ≡ number_in least most text.now }
{
    let digits = text.as_bytes();
    if !is_number(digits) || MOST_DIGITS < digits.len() {
        return None;
    }
    match text.parse::<u32>() {
        Ok(number) => {
            if least <= number && number <= most {
                Some(number)
            } else {
                None
            }
        }
        Err(_) => None,
    }
}
