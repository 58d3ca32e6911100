//! Whether a process keeps each journal on two disks.

ghost use Rattle.std.specs.Prelude.{◌≡◌, map, string_bytes, bytes_eq};
ghost use Rattle.std.specs.List.{list_any};
ghost use Rattle.command_words.specs.Mirrored.{is_mirrored};

fn has_word(words: &[String], text: &str) -> bool
    ensures { result ≡ list_any (λ word. bytes_eq (string_bytes word) text.now) words.now }
{
    words.iter().any(|word| word.as_str() == text)
}

/// Whether some word is `--mirror`.
pub fn is_mirrored(words: &[String]) -> bool
    ensures { result ≡ is_mirrored (map string_bytes words.now) }
{
    has_word(words, "--mirror")
}
