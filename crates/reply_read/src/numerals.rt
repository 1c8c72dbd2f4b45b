//! Numbers of 64 bits.

ghost use Rattle.std.specs.Prelude.{◌≡◌, ◌^◌, Some, None, nat_lt, if◌then◌else◌, true};
ghost use Rattle.std.specs.Str.Parse.{digits_value};
ghost use Rattle.plex_spell.specs.Tokens.{is_numeral};
ghost use Rattle.plex_spell.specs.declared.rigour.Rigour.TheVariants.{Names};
ghost use Rattle.plex_spell.specs.Places.{number_of};

use plex_spell::is_numeral;

// The value of a number, where it has 64 bits.
fn value(word: &[u8]) -> Option<u64>
    requires { is_numeral word.now ≡ true }
    ensures { result ≡ (if nat_lt (digits_value 10 word.now) (2 ^ 64) then Some
        (digits_value 10 word.now) else None) }
{
    let Ok(text) = std::str::from_utf8(word) else {
        return None;
    };
    text.parse().ok()
}

/// Reads a number of at most 64 bits: digits, the first of them no zero before others.
pub fn wide_number(word: &[u8]) -> Option<u64>
    ensures { result ≡ number_of Names 0 18446744073709551615 word.now }
{
    if !is_numeral(word) {
        return None;
    }
    value(word)
}
