// The words of a line.
ghost use Rattle.std.specs.Prelude.{◌≡◌, ◌≤◌, length, IfSome};
ghost use Rattle.lines.specs.Words.{without_return, words, word, word_place};

// A line without the carriage return that may stand at its end.
pub(crate) fn without_return(text: &[u8]) -> &[u8]
    ensures value { result.now ≡ without_return text.now }
    ensures bound { length result.now ≤ length text.now }
{
    text.strip_suffix(b"\r").unwrap_or(text)
}

// The place at which word k starts, counted from 0, if there is such a word.
pub(crate) fn word_start(text: &[u8], k: usize) -> Option<usize>
    ensures value { result ≡ word_place k text.now }
    ensures bound { IfSome result (λ i. i ≤ length text.now) }
{
    let mut start = 0;
    for _ in 0..k {
        start += text[start..].iter().position(|b| *b == b' ')? + 1;
    }
    Some(start)
}

// Word k; an empty part where there is no such word.

pub(crate) fn word(text: &[u8], k: usize) -> &[u8]
    ensures { result.now ≡ word k text.now }
{
    text.split(|b| *b == b' ').nth(k).unwrap_or(&[])
}

// How many words there are.

pub(crate) fn count(text: &[u8]) -> usize
    ensures { result ≡ length (words text.now) }
{
    text.split(|b| *b == b' ').count()
}
