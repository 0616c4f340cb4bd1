// Words and numbers in a line of text.
ghost use Rattle.std.specs.Prelude.{◌≡◌, ◌==◌, map, drop, not};
ghost use Rattle.std.specs.List.{position, slice_get};
ghost use Rattle.std.specs.Option.{option_map};
ghost use Rattle.triangles.specs.Line.{words, heard, number as number_in};
ghost use Rattle.triangles.specs.Word.{leading};

// A number in decimal digits, below 2^64. It is not std's parse, which takes a sign too.
#[tactic(auto, using(crate::proofs::Digits::number_all, crate::proofs::Digits::number_stop, crate::proofs::Digits::number_more, crate::proofs::Digits::number_large))]
pub(crate) fn number(word: &[u8]) -> Option<u64>
    ensures { result ≡ number_in word.now }
{
    if word.is_empty() {
        return None;
    }
    let mut n = 0u64;
    for b in word {
        if !b.is_ascii_digit() {
            return None;
        }
        n = n.checked_mul(10)?.checked_add(u64::from(*b - b'0'))?;
    }
    Some(n)
}

// Where the first byte is that is no space.
fn word_start(line: &[u8]) -> Option<usize>
    ensures { result ≡ position (λ b. not (b == 32)) line.now }
{
    line.iter().position(|b| *b != b' ')
}

// Where the first space is.
fn word_end(line: &[u8]) -> Option<usize>
    ensures { result ≡ position (λ b. b == 32) line.now }
{
    line.iter().position(|b| *b == b' ')
}

// The next word of a line, if there is one, and what is after it.
pub(crate) fn next_word(line: &[u8]) -> (Option<&[u8]>, &[u8])
    ensures word { option_map (λ w. w.now) result.0 ≡ slice_get (words line.now) 0 }
    ensures rest { words result.1.now ≡ drop 1 (words line.now) }
{
    let Some(start) = word_start(line) else {
        return (None, &[]);
    };
    let (_, line) = line.split_at(start);
    let (word, rest) = line.split_at(word_end(line).unwrap_or(line.len()));
    (Some(word), rest)
}

// The first four words of a line, each if there is one, and what is after them; a remark has none.
#[tactic(auto, using(crate::proofs::Words::no_words))]
pub(crate) fn first_words(line: &[u8]) -> ([Option<&[u8]>; 4], &[u8])
    ensures words { map (option_map (λ w. w.now)) result.0 ≡ leading 4 (heard (words line.now)) }
    ensures rest { words result.1.now ≡ drop 4 (heard (words line.now)) }
{
    let (one, rest) = next_word(line);
    if one.is_some_and(|w| w.starts_with(b"#")) {
        return ([None; 4], &[]);
    }
    let (two, rest) = next_word(rest);
    let (three, rest) = next_word(rest);
    let (four, rest) = next_word(rest);
    ([one, two, three, four], rest)
}
