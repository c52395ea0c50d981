// The words at the front of a line.
ghost use Rattle.std.specs.Prelude.{◌≡◌, ◌<◌, IfSome, IfNone, length, take, slice_index, false, true};
ghost use Rattle.text_model.specs.Words.{is_blank};
ghost use Rattle.batch_text.specs.WordsOfLine.{IsNextWord, IsOnlyWord, AreTwoWords, AreThreeWords, AreFourWords, AreFiveWords, AreSixWords, AreBlanks, HasNoBlank};

use memchr::memchr2;

// The place of the first byte that is no blank.
fn word_start(line: &[u8]) -> Option<usize>
    ensures within { IfSome result (λ i. i < length line.now) }
    ensures before { IfSome result (λ i. AreBlanks (take i line.now)) }
    ensures start { IfSome result (λ i. is_blank (slice_index line.now i) ≡ false) }
    ensures none { IfNone result (AreBlanks line.now) }
{
    line.iter().position(|b| *b != b' ' && *b != b'\t')
}

// The place of the first blank.
fn blank_at(line: &[u8]) -> Option<usize>
    ensures within { IfSome result (λ i. i < length line.now) }
    ensures before { IfSome result (λ i. HasNoBlank (take i line.now)) }
    ensures blank { IfSome result (λ i. is_blank (slice_index line.now i) ≡ true) }
    ensures none { IfNone result (HasNoBlank line.now) }
{
    memchr2(b' ', b'\t', line)
}

/// The first word of a line, and what follows it.
pub(crate) fn next_word(line: &[u8]) -> Option<(&[u8], &[u8])>
    ensures { IsNextWord result line.now }
{
    let start = word_start(line)?;
    let line = &line[start..];
    match blank_at(line) {
        Some(end) => Some((&line[..end], &line[end..])),
        None => Some((line, &[])),
    }
}

/// The word of a line that has exactly one.
pub(crate) fn only_word(line: &[u8]) -> Option<&[u8]>
    ensures { IsOnlyWord result line.now }
{
    let (word, rest) = next_word(line)?;
    if next_word(rest).is_some() {
        return None;
    }
    Some(word)
}

/// The words of a line that has exactly two.
pub(crate) fn two_words(line: &[u8]) -> Option<(&[u8], &[u8])>
    ensures { AreTwoWords result line.now }
{
    let (first, rest) = next_word(line)?;
    let second = only_word(rest)?;
    Some((first, second))
}

/// The words of a line that has exactly three.
pub(crate) fn three_words(line: &[u8]) -> Option<(&[u8], &[u8], &[u8])>
    ensures { AreThreeWords result line.now }
{
    let (first, rest) = next_word(line)?;
    let (second, third) = two_words(rest)?;
    Some((first, second, third))
}

/// The words of a line that has exactly four.
pub(crate) fn four_words(line: &[u8]) -> Option<(&[u8], &[u8], &[u8], &[u8])>
    ensures { AreFourWords result line.now }
{
    let (first, rest) = next_word(line)?;
    let (second, third, fourth) = three_words(rest)?;
    Some((first, second, third, fourth))
}

/// The words of a line that has exactly five.
pub(crate) fn five_words(line: &[u8]) -> Option<(&[u8], &[u8], &[u8], &[u8], &[u8])>
    ensures { AreFiveWords result line.now }
{
    let (first, rest) = next_word(line)?;
    let (second, third, fourth, fifth) = four_words(rest)?;
    Some((first, second, third, fourth, fifth))
}

/// The words of a line that has exactly six.
pub(crate) fn six_words(line: &[u8]) -> Option<(&[u8], &[u8], &[u8], &[u8], &[u8], &[u8])>
    ensures { AreSixWords result line.now }
{
    let (first, rest) = next_word(line)?;
    let (second, third, fourth, fifth, sixth) = five_words(rest)?;
    Some((first, second, third, fourth, fifth, sixth))
}
