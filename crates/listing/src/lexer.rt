// From the bytes of a text to its lines, and from a line to its words and numbers.
ghost use Rattle.std.specs.Prelude.{◌≡◌, ◌<◌, ◌≤◌, true, false, [], length, position, IfErr, MatchOption, MatchResult, OnSome};
ghost use Rattle.listing.specs.declared.refusal.Reason.TheVariants.{ByteNotPermitted};
ghost use Rattle.listing.specs.Lines.{Refused};
ghost use Rattle.listing.specs.Reading.{refusal};
ghost use Rattle.listing.specs.Taking.{Comes, left, line_at, size};
ghost use Rattle.listing.specs.Limits.{all};
ghost use Rattle.listing.specs.Words.{comments, content_of, ends, is_digit, parts, permitted};
ghost use Rattle.listing.specs.Cuts.{Tells, after_word, kind, line_of, next_word, past_spaces, rest_of, unpermitted};

use crate::refusal::{Reason, Refusal};

// A part of the text that spaces set apart: a number is all digits, a word is not.
#[derive(Clone, Copy)]
pub enum Token<'a> {
    Word { bytes: &'a [u8], line: u16 },
    Number { bytes: &'a [u8], line: u16 },
}

impl Token<'_> {
    // The line that it stands on.
    pub(crate) fn line(self) -> u16
        ensures { result ≡ line_at self.entry }
    {
        match self {
            Token::Word { line, .. } | Token::Number { line, .. } => line,
        }
    }
}

// The words of a line that are still to be taken.
#[derive(Clone, Copy)]
pub struct Words<'a> {
    pub rest: &'a [u8],
    pub line: u16,
}

#[derive(Clone, Copy)]
enum Kind {
    Letter,
    Digit,
    Space,
    LineEnd,
    Comment,
    Other,
}

fn kind_of(byte: u8) -> Kind
    ensures { result ≡ kind byte }
{
    match byte as char {
        'a'..='z' => Kind::Letter,
        '0'..='9' => Kind::Digit,
        ' ' => Kind::Space,
        '\n' => Kind::LineEnd,
        '#' => Kind::Comment,
        _ => Kind::Other,
    }
}

// Tests of a byte, and searches, each a call of the library's generic `position` or `all`, which is proved where it is the
// whole of a function.
fn is_line_end(byte: u8) -> bool
    ensures { result ≡ ends byte }
{
    matches!(kind_of(byte), Kind::LineEnd)
}

fn is_space(byte: u8) -> bool
    ensures { result ≡ parts byte }
{
    matches!(kind_of(byte), Kind::Space)
}

fn is_comment(byte: u8) -> bool
    ensures { result ≡ comments byte }
{
    matches!(kind_of(byte), Kind::Comment)
}

fn is_digit(byte: u8) -> bool
    ensures { result ≡ is_digit byte }
{
    matches!(kind_of(byte), Kind::Digit)
}

fn is_permitted(byte: u8) -> bool
    ensures { result ≡ permitted byte }
{
    matches!(kind_of(byte), Kind::Letter | Kind::Digit | Kind::Space)
}

fn line_end(text: &[u8]) -> Option<usize>
    ensures { result ≡ position ends text.now }
{
    text.iter().position(|byte| is_line_end(*byte))
}

// The first byte that is neither of a word nor a space.
fn first_unpermitted(line: &[u8]) -> Option<usize>
    ensures { result ≡ position unpermitted line.now }
{
    line.iter().position(|byte| !is_permitted(*byte))
}

fn word_end(bytes: &[u8]) -> Option<usize>
    ensures { result ≡ position parts bytes.now }
{
    bytes.iter().position(|byte| is_space(*byte))
}

fn all_digits(bytes: &[u8]) -> bool
    ensures { result ≡ all is_digit bytes.now }
{
    bytes.iter().all(|byte| is_digit(*byte))
}

// What is left of a line after the spaces at its front. A rule of the project: slice patterns take the bytes of a line apart.
// The first space after a word is found by `position`: a slice pattern has one part of unknown length, and a cut there wants two.
fn past_spaces(bytes: &[u8]) -> &[u8]
    ensures left { result.now ≡ past_spaces bytes.now }
    ensures shorter { length result.now ≤ length bytes.now }
{
    let mut left = bytes;
    while let [b' ', rest @ ..] = left {
        left = rest;
    }
    left
}

// The first line of a text without its line end, and what follows that.
pub fn first_line(text: &[u8]) -> (&[u8], &[u8])
    ensures shorter { 0 < length text.now → length result.1.now < length text.now }
    ensures line { result.0.now ≡ line_of text.now }
    ensures rest { result.1.now ≡ rest_of text.now }
{
    match line_end(text) {
        Some(end) => (&text[..end], &text[end + 1..]),
        None => (text, &[]),
    }
}

// The words of a line, up to its comment.
pub fn words_of(bytes: &[u8], line: u16) -> Result<Words<'_>, Refusal>
    ensures content { MatchResult result (λ w. (w.line ≡ line) × ((w.rest.now ≡ content_of bytes.now) × (all permitted (content_of bytes.now) ≡ true))) (λ e. Refused ByteNotPermitted line e × (all permitted (content_of bytes.now) ≡ false)) }
    ensures refusal { IfErr result (λ e. e ≡ refusal ByteNotPermitted line) }
{
    // One search: a byte that may not stand in a line is met no later than the comment, and nothing past it is looked at.
    let Some(end) = first_unpermitted(bytes) else {
        return Ok(Words { rest: bytes, line });
    };
    if is_comment(bytes[end]) {
        Ok(Words {
            rest: &bytes[..end],
            line,
        })
    } else {
        Err(Reason::ByteNotPermitted.at(line))
    }
}

fn token_of(bytes: &[u8], line: u16) -> Token<'_>
    ensures { Tells result bytes.now line }
{
    if all_digits(bytes) {
        Token::Number { bytes, line }
    } else {
        Token::Word { bytes, line }
    }
}

impl<'a> Words<'a> {
    // Takes the first of the words, if any is left. No `Iterator`: nothing goes through all the words of a line. Inlined: each
    // word of a text is taken by it.
    #[inline(always)]
    pub fn next(&mut self) -> Option<Token<'a>>
        ensures line { self.new.line ≡ self.old.line }
        ensures word { MatchOption result (next_word self.old.rest.now ≡ []) (λ t. Tells t (next_word self.old.rest.now) self.old.line) }
        ensures rest { self.new.rest.now ≡ after_word self.old.rest.now }
        ensures shorter { MatchOption result (length self.new.rest.now ≤ length self.old.rest.now) (λ _. length self.new.rest.now < length self.old.rest.now) }
        ensures comes { MatchOption result (left self.old ≡ []) (λ t. Comes t (left self.old) (left self.new) self.old.line) }
        ensures smaller { OnSome result (size self.new < size self.old) }
    {
        let bytes = past_spaces(self.rest);
        let (word, rest) = bytes.split_at(word_end(bytes).unwrap_or(bytes.len()));
        self.rest = rest;
        // By `then`, three clauses would each have to open the closure's contract.
        if word.is_empty() {
            None
        } else {
            Some(token_of(word, self.line))
        }
    }
}
