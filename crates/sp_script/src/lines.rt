//! The lines of a script, and their words.

ghost use Rattle.std.specs.Prelude.{◌≡◌, ◌<◌, ◌≤◌, ◌∷◌, ◌==◌, not, drop, length, position, OnOk};
ghost use Rattle.std.specs.List.{prefix_len};
ghost use Rattle.std.specs.Str.Lines.{lines, strip_carriage_return};
ghost use Rattle.sp_script.specs.Lines.{is_blank, is_skipped, texts, words_of};

use std::alloc::AllocFailed;

/// What stands behind so many bytes of a text.
fn behind(text: &[u8], len: usize) -> &[u8]
    requires { len ≤ length text.now }
    ensures { result.now ≡ drop len text.now }
{
    &text[len..]
}

/// A line without the CR at its end.
fn without_return(line: &[u8]) -> &[u8]
    ensures { result.now ≡ strip_carriage_return line.now }
{
    if line.last() == Some(&b'\r') {
        &line[..line.len() - 1]
    } else {
        line
    }
}

/// Where the first LF of a text stands.
fn line_feed(text: &[u8]) -> Option<usize>
    ensures { result ≡ position (λ byte. byte == 10) text.now }
{
    text.iter().position(|byte| *byte == b'\n')
}

/// The first line of a text, and the text behind it. A line ends with LF or CR and LF, or with the text.
pub fn first_line(text: &[u8]) -> (&[u8], &[u8])
    requires { 0 < length text.now }
    ensures value { lines text.now ≡ result.0.now ∷ lines result.1.now }
    ensures less { length result.1.now < length text.now }
{
    match line_feed(text) {
        Some(len) => (without_return(&text[..len]), behind(text, len + 1)),
        None => (text, behind(text, text.len())),
    }
}

fn is_blank(byte: u8) -> bool
    ensures { result ≡ is_blank byte }
{
    byte == b' ' || byte == b'\t'
}

/// How many bytes at the front are no blanks.
fn word_len(text: &[u8]) -> usize
    ensures value { result ≡ prefix_len (λ byte. not (is_blank byte)) text.now }
    ensures within { result ≤ length text.now }
{
    text.iter().take_while(|byte| !is_blank(**byte)).count()
}

/// Makes `words` the words of a line, which blanks part.
pub fn split_words<'a>(
    line: &'a [u8],
    words: &mut Vec<&'a [u8]>,
) -> Result<(), AllocFailed<&'a [u8]>>
    ensures { OnOk result (texts words.new.items ≡ words_of line.now) }
{
    words.clear();
    let mut rest = line;
    while !rest.is_empty() {
        let len = word_len(rest);
        if len == 0 {
            rest = behind(rest, 1);
        } else {
            words.push(&rest[..len])?;
            rest = behind(rest, len);
        }
    }
    Ok(())
}

/// Whether a line of these words is skipped: it has none, or the first begins with `//`.
pub fn is_skipped(words: &[&[u8]]) -> bool
    ensures { result ≡ is_skipped (texts words.now) }
{
    match words.first() {
        Some(word) => word.starts_with(b"//"),
        None => true,
    }
}
