ghost use Rattle.std.specs.Prelude.{◌≡◌, ◌≢◌, ◌∷◌, [], length, map, MatchOption};
ghost use Rattle.std.specs.Str.{bytes_eq};

/// Whether a word is spelled so.
pub fn is_word(word: &[u8], spelled: &[u8]) -> bool
    ensures { result ≡ bytes_eq word.now spelled.now }
{
    word == spelled
}

/// The words, if there are two.
pub fn two_words<'a>(words: &[&'a [u8]]) -> Option<(&'a [u8], &'a [u8])>
    ensures { MatchOption result (length words.now ≢ 2) (λ t. map (λ word. word.now) words.now ≡ t.0.now ∷ t.1.now ∷ []) }
{
    if words.len() == 2 {
        Some((words[0], words[1]))
    } else {
        None
    }
}

/// The words, if there are three.
pub fn three_words<'a>(words: &[&'a [u8]]) -> Option<(&'a [u8], &'a [u8], &'a [u8])>
    ensures { MatchOption result (length words.now ≢ 3) (λ t. map (λ word. word.now) words.now ≡ t.0.now ∷ t.1.now ∷ t.2.now ∷ []) }
{
    if words.len() == 3 {
        Some((words[0], words[1], words[2]))
    } else {
        None
    }
}
