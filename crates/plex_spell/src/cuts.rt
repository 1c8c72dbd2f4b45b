ghost use Rattle.std.specs.Prelude.{◌≡◌, ◌==◌, ◌<◌, ◌∷◌, length, true, position, take, drop};
ghost use Rattle.std.specs.List.{position_or_len};
ghost use Rattle.plex_spell.specs.Words.{is_blank, words_of, begins_word};

// Whether a byte is a blank or a tab.
fn is_blank_byte(byte: u8) -> bool
    ensures { result ≡ is_blank byte }
{
    byte == b' ' || byte == b'\t'
}

/// The text behind the blanks and tabs that it begins with.
pub(crate) fn after_blanks(text: &[u8]) -> &[u8]
    ensures words { words_of result.now ≡ words_of text.now }
    ensures begins { 0 < length result.now → begins_word result.now ≡ true }
{
    let mut rest = text;
    while let [first, more @ ..] = rest {
        if !is_blank_byte(*first) {
            return rest;
        }
        rest = more;
    }
    rest
}

// The place of the first blank or tab.
fn first_blank(text: &[u8]) -> Option<usize>
    ensures { result ≡ position is_blank text.now }
{
    text.iter().position(|byte| is_blank_byte(*byte))
}

/// The word that a text begins with, and what stands behind it.
pub(crate) fn first_word(text: &[u8]) -> (&[u8], &[u8])
    requires { begins_word text.now ≡ true }
    ensures { words_of text.now ≡ result.0.now ∷ words_of result.1.now }
{
    let len = first_blank(text).unwrap_or(text.len());
    text.split_at(len)
}
