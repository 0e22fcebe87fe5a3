//! Lists of AIs and of codes.
ghost use Rattle.std.specs.Prelude.{◌≡◌};
ghost use Rattle.answer_core.specs.Listed.{begins_like, is_behind_comma, is_listed};

/// Whether a word is the first of a list, in which `n` stands for any character.
fn begins_like(word: &[u8], list: &[u8]) -> bool
    ensures { result ≡ begins_like word.now list.now }
{
    let mut left = word;
    let mut signs = list;
    while let [letter, letters @ ..] = left {
        match signs {
            [sign, more @ ..] if *sign == b'n' || *letter == *sign => signs = more,
            _ => return false,
        }
        left = letters;
    }
    match signs {
        [] | [b',', ..] => true,
        _ => false,
    }
}

/// Whether a word is in a list such as `01,02,310n`, in which `n` stands for any character.
pub(crate) fn is_listed(word: &[u8], list: &[u8]) -> bool
    ensures { result ≡ is_listed word.now list.now }
{
    if begins_like(word, list) {
        return true;
    }
    let mut rest = list;
    while let [sign, more @ ..] = rest {
        if *sign == b',' && begins_like(word, more) {
            return true;
        }
        rest = more;
    }
    false
}
