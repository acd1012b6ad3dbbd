// The words of a line, and the parts of a word.
ghost use Rattle.std.specs.Prelude.{◌≡◌, ◌+◌, ◌<◌, not, length, take, drop, IfSome, if◌then◌else◌, Some, None, MatchOption, ◌==◌, nat_lt};
ghost use Rattle.std.specs.Option.{option_map};
ghost use Rattle.std.specs.List.{prefix_len};
ghost use Rattle.text.specs.Words.{blank, Word};

// Whether a byte is a space, a tab or a carriage return.
pub fn is_blank(b: u8) -> bool
    ensures { result ≡ blank b }
{
    matches!(b, b' ' | b'\t' | b'\r')
}

// The first word of a line and what stands after it, or None where the line is blank.
pub fn next_word(line: &[u8]) -> Option<(&[u8], &[u8])>
    ensures { MatchOption result (prefix_len blank line.now ≡ length line.now) (λ p. Word line.now p.0.now p.1.now) }
{
    let start = line.iter().position(|b| !is_blank(*b))?;
    let text = &line[start..];
    let end = text.iter().position(|b| is_blank(*b)).unwrap_or(text.len());
    Some(text.split_at(end))
}

// The part before the first separator, and what stands after that separator if there is one.
pub fn cut(word: &[u8], separator: u8) -> (&[u8], Option<&[u8]>)
    ensures before { result.0.now ≡ take (prefix_len (λ c. not (c == separator)) word.now) word.now }
    ensures shorter { IfSome result.1 (λ x. length x.now < length word.now) }
    ensures after { option_map (λ x. x.now) result.1 ≡ (if nat_lt (prefix_len (λ c. not (c == separator)) word.now) (length word.now) then Some (drop (prefix_len (λ c. not (c == separator)) word.now + 1) word.now) else None) }
{
    match word.iter().position(|b| *b == separator) {
        Some(n) => (&word[..n], Some(&word[n + 1..])),
        None => (word, None),
    }
}
