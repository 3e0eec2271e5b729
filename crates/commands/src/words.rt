// Words in turn.
ghost use Rattle.std.specs.Prelude.{map, string_bytes};
ghost use Rattle.commands.specs.Words.{FirstOf};

// The first word, and the words behind it; none where there is no word.
pub fn first_word(words: &[String]) -> Option<(&str, &[String])>
    ensures { FirstOf (map string_bytes words.now) result }
{
    match words {
        [word, rest @ ..] => Some((word.as_str(), rest)),
        [] => None,
    }
}
