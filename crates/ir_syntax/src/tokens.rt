//! Words and brackets, one by one.
ghost use Rattle.ir_laws.specs.Expression.{ends_word as ends, is_space, tokens_of};
ghost use Rattle.ir_syntax.specs.Nesting.{are_word_bytes};
ghost use Rattle.ir_syntax.specs.Tokens.{IsFirst};
ghost use Rattle.std.specs.List.{slice_range};
ghost use Rattle.std.specs.Prelude.{◌≡◌, ◌≤◌, ◌<◌, true, false, length, drop, slice_index, IfSome};

use crate::expression::ends_word;

/// A bracket or a word.
#[derive(Clone, Copy)]
pub(crate) enum Token<'a> {
    Opens,
    Closes,
    Word(&'a [u8]),
}

/// How many spaces the text begins with.
fn spaces(text: &[u8]) -> usize
    ensures within { result ≤ length text.now }
    ensures tokens { tokens_of text.now ≡ tokens_of (drop result text.now) }
    ensures behind { result < length text.now → is_space (slice_index text.now result) ≡ false }
{
    let mut end = 0;
    while end < text.len() && text[end] == b' ' {
        end += 1;
    }
    end
}

/// Where the word ends that starts at a place.
fn word_end(text: &[u8], start: usize) -> usize
    requires { start ≤ length text.now }
    ensures order { start ≤ result }
    ensures within { result ≤ length text.now }
    ensures word { are_word_bytes (slice_range text.now start result) ≡ true }
    ensures behind { result < length text.now → ends (slice_index text.now result) ≡ true }
    ensures some { start < length text.now → ends (slice_index text.now start) ≡ false → start < result }
{
    let mut end = start;
    while end < text.len() && !ends_word(text[end]) {
        end += 1;
    }
    end
}

/// The first token of the text, and what stands behind it.
pub(crate) fn first_token(text: &[u8]) -> Option<(Token<'_>, &[u8])>
    ensures first { IsFirst text.now result }
    ensures shorter { IfSome result (λ first. length first.1.now < length text.now) }
{
    let start = spaces(text);
    if start >= text.len() {
        return None;
    }
    match text[start] {
        b'(' => Some((Token::Opens, &text[start + 1..])),
        b')' => Some((Token::Closes, &text[start + 1..])),
        _ => {
            let end = word_end(text, start);
            Some((Token::Word(&text[start..end]), &text[end..]))
        }
    }
}
