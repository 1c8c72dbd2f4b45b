ghost use Rattle.std.specs.Prelude.{◌≡◌, ◌<◌, ◌^◌, Some, None, true, if◌then◌else◌, nat_lt, nat_le, ◌≤◌, IfSome, OnSome};
ghost use Rattle.std.specs.Char.{is_ascii_digit};
ghost use Rattle.std.specs.List.{list_all};
ghost use Rattle.std.specs.Str.Parse.{digits_value};
ghost use Rattle.plex_spell.specs.Tokens.{is_numeral};
ghost use Rattle.plex_spell.specs.Places.{within_limits, is_form, number_of};

use crate::rigour::Rigour;

// Whether a word is made of digits.
fn are_digits(word: &[u8]) -> bool
    ensures { result ≡ list_all is_ascii_digit word.now }
{
    word.iter().all(|byte| byte.is_ascii_digit())
}

/// Whether a word is a number: digits, the first of them no zero before others.
pub fn is_numeral(word: &[u8]) -> bool
    ensures { result ≡ is_numeral word.now }
{
    match word {
        [] => false,
        [digit] => digit.is_ascii_digit(),
        [first, ..] => *first != b'0' && are_digits(word),
    }
}

// The value of a number, where it has 32 bits.
fn value(word: &[u8]) -> Option<u32>
    requires { is_numeral word.now ≡ true }
    ensures { result ≡ (if nat_lt (digits_value 10 word.now) (2 ^ 32) then Some
        (digits_value 10 word.now) else None) }
{
    let Ok(text) = std::str::from_utf8(word) else {
        return None;
    };
    text.parse().ok()
}

/// Reads a number from `low` to `high`.
pub fn number(rigour: Rigour, word: &[u8], low: u32, high: u32) -> Option<u32>
    ensures value { result ≡ number_of rigour low high word.now }
    ensures range { low ≤ high → IfSome result (λ n. (low ≤ n) × (n ≤ high)) }
{
    if !is_numeral(word) {
        return None;
    }
    match value(word) {
        Some(n) if low <= n && n <= high => Some(n),
        _ if rigour == Rigour::Form => Some(low),
        _ => None,
    }
}
