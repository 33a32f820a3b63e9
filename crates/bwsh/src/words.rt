//! Splitting a line into words.
ghost use Rattle.std.specs.Prelude.{◌≡◌, [], ◌∷◌, not, position, MatchOption};
ghost use Rattle.std.specs.Option.{option_copied, option_map};
ghost use Rattle.bwsh.specs.Words.{is_blank, words_of, the_only, the_two, the_three};

fn is_blank(byte: u8) -> bool
    ensures { result ≡ is_blank byte }
{
    byte == b' ' || byte == b'\t'
}

fn start_of_word(text: &[u8]) -> Option<usize>
    ensures { result ≡ position (λ c. not (is_blank c)) text.now }
{
    text.iter().position(|byte| !is_blank(*byte))
}

fn end_of_word(text: &[u8]) -> Option<usize>
    ensures { result ≡ position is_blank text.now }
{
    text.iter().position(|byte| is_blank(*byte))
}

/// Returns the first word and the rest of the line, or `None` if there is no word.
pub fn first_word(line: &[u8]) -> Option<(&[u8], &[u8])>
    ensures { MatchOption result (words_of line.now ≡ [])
        (λ first. words_of line.now ≡ first.0.now ∷ words_of first.1.now) }
{
    let start = start_of_word(line)?;
    let line = &line[start..];
    let end = end_of_word(line).unwrap_or(line.len());
    Some(line.split_at(end))
}

/// Returns the word of a line that has exactly one.
pub fn only_word(line: &[u8]) -> Option<&[u8]>
    ensures { option_copied result ≡ the_only (words_of line.now) }
{
    let (word, rest) = first_word(line)?;
    if first_word(rest).is_some() {
        return None;
    }
    Some(word)
}

/// Returns the words of a line that has exactly two.
pub fn two_words(line: &[u8]) -> Option<(&[u8], &[u8])>
    ensures { option_map (λ (a, b). (a.now, b.now)) result ≡ the_two (words_of line.now) }
{
    let (first, rest) = first_word(line)?;
    Some((first, only_word(rest)?))
}

/// Returns the words of a line that has exactly three.
pub fn three_words(line: &[u8]) -> Option<(&[u8], &[u8], &[u8])>
    ensures { option_map (λ (a, b, c). (a.now, b.now, c.now)) result
        ≡ the_three (words_of line.now) }
{
    let (first, rest) = first_word(line)?;
    let (second, third) = two_words(rest)?;
    Some((first, second, third))
}
