ghost use Rattle.std.specs.Prelude.{◌≡◌, ◌<◌, ◌==◌, ◌++◌, ◌∷◌, [], List, ℕ, filter, map, not, ◌||◌, length, IfOk, IfSome, IfNone, None, option_map, OnOk};
ghost use Rattle.std.specs.List.{slice_split};
ghost use Rattle.rb_text_defs.specs.Words.{Plain, Quoted, begins_with, is_blank, is_empty, lets_a_text_follow, plain_words, words_of, name_of, number_of};
ghost use Rattle.rb_text_defs.specs.Form.{is_word, small_number_of};
ghost use Rattle.rb_script.specs.Seen.{word_of};

use crate::byte::{are_text_bytes, ends_with_blank, is_blank, is_name, number};
use crate::cut::cut;
use rb_base::NoMemory;
use std::alloc::{AllocError, Global};

/// A word of a line.
#[derive(Clone, Copy)]
pub(crate) enum Word<'a> {
    /// Bytes without blanks and quotes.
    Plain(&'a [u8]),
    /// A text, without its quotes.
    Quoted(&'a [u8]),
}

impl<'a> Word<'a> {
    /// Returns whether this is the plain word of these bytes.
    pub(crate) fn is(self, bytes: &[u8]) -> bool
        ensures { result ≡ is_word bytes.now (word_of self.entry) }
    {
        match self {
            Word::Plain(word) => word == bytes,
            Word::Quoted(_) => false,
        }
    }

    /// Returns the number that the word spells.
    #[tactic(auto, unfolding(rb_text_defs::specs::Words::number_of))]
    pub(crate) fn number(self) -> Option<u64>
        ensures { result ≡ number_of (word_of self.entry) }
    {
        match self {
            Word::Plain(bytes) => number(bytes),
            Word::Quoted(_) => None,
        }
    }

    /// Returns the number that the word spells, if it has at most 32 bits.
    pub(crate) fn small_number(self) -> Option<u32>
        ensures { result ≡ small_number_of (word_of self.entry) }
    {
        u32::try_from(self.number()?).ok()
    }

    /// Returns the name that the word spells.
    #[tactic(auto, unfolding(rb_text_defs::specs::Words::name_of))]
    pub(crate) fn name(self) -> Option<&'a [u8]>
        ensures { option_map (λ name. name.now) result ≡ name_of (word_of self.entry) }
    {
        match self {
            Word::Plain(bytes) => { if is_name(bytes) { Some(bytes) } else { None } }
            Word::Quoted(_) => None,
        }
    }
}

/// Returns the words of a line, if its texts are well formed: each ends, its bytes are printable,
/// and it stands between blanks or the line's ends.
pub(crate) fn words(alloc: Global, line: &[u8]) -> Result<Option<Vec<Word<'_>>>, NoMemory>
    ensures { IfOk result (λ words. option_map (λ words. map word_of words.items) words
        ≡ words_of line.now) }
{
    let mut words = Vec::new(alloc);
    let mut rest = line;
    while let Some((outside, quoted)) = first_quote(rest) {
        let Some((text, after)) = text(outside, quoted) else {
            return Ok(None);
        };
        push_plain_words(alloc, &mut words, outside)?;
        words.push(Word::Quoted(text))?;
        rest = after;
    }
    push_plain_words(alloc, &mut words, rest)?;
    Ok(Some(words))
}

/// Returns what stands before the first quote of a line, and what stands after it.
fn first_quote(line: &[u8]) -> Option<(&[u8], &[u8])>
    ensures some { IfSome result (λ parts. slice_split (λ byte. byte == 34) line.now
        ≡ parts.0.now ∷ slice_split (λ byte. byte == 34) parts.1.now) }
    ensures none { IfNone result (slice_split (λ byte. byte == 34) line.now ≡ line.now ∷ []) }
    ensures shorter { IfSome result (λ parts. length parts.1.now < length line.now) }
{
    let (before, rest) = cut(line, b'"');
    match rest {
        Some(rest) => Some((before, rest)),
        None => None,
    }
}

/// Returns the text that begins after a quote, and what follows its closing quote, if its bytes are
/// printable and a text may stand there.
fn text<'a>(outside: &[u8], quoted: &'a [u8]) -> Option<(&'a [u8], &'a [u8])>
    ensures some { IfSome result (λ parts. (rest : List ℕ)
        → slice_split (λ byte. byte == 34) rest
        ≡ outside.now ∷ slice_split (λ byte. byte == 34) quoted.now
        → words_of rest ≡ option_map (λ words. plain_words outside.now
        ++ (Quoted parts.0.now ∷ words)) (words_of parts.1.now)) }
    ensures none { IfNone result ((rest : List ℕ)
        → slice_split (λ byte. byte == 34) rest
        ≡ outside.now ∷ slice_split (λ byte. byte == 34) quoted.now → words_of rest ≡ None) }
    ensures shorter { IfSome result (λ parts. length parts.1.now < length quoted.now) }
{
    let Some((text, after)) = first_quote(quoted) else {
        return None;
    };
    if !are_text_bytes(text) || !may_follow(outside) || !may_precede(after) {
        return None;
    }
    Some((text, after))
}

/// Returns whether a text may follow these bytes.
fn may_follow(outside: &[u8]) -> bool
    ensures { result ≡ lets_a_text_follow outside.now }
{
    outside.is_empty() || ends_with_blank(outside)
}

/// Returns whether a text may stand before these bytes, the rest of a line.
fn may_precede(after: &[u8]) -> bool
    ensures { result ≡ (is_empty after.now || begins_with is_blank after.now) }
{
    match after {
        [first, ..] => is_blank(*first),
        [] => true,
    }
}

/// Adds the words of a piece without quotes.
fn push_plain_words<'a>(
    alloc: Global,
    words: &mut Vec<Word<'a>>,
    piece: &'a [u8],
) -> Result<(), NoMemory>
    ensures { OnOk result (map word_of words.new.items ≡ map word_of words.old.items
        ++ plain_words piece.now) }
{
    let parts = parts(alloc, piece)?;
    push_words(words, &parts)?;
    Ok(())
}

/// Adds the parts that are words: all but the empty ones.
fn push_words<'a>(words: &mut Vec<Word<'a>>, parts: &[&'a [u8]]) -> Result<(), NoMemory>
    ensures { OnOk result (map word_of words.new.items
        ≡ map word_of words.old.items
        ++ map (λ bytes. Plain bytes) (filter (λ bytes. not (is_empty bytes))
        (map (λ part. part.now) parts.now))) }
{
    for part in parts {
        if !part.is_empty() {
            words.push(Word::Plain(part))?;
        }
    }
    Ok(())
}

/// Returns the parts before, between and after the blanks of a piece.
fn parts(alloc: Global, piece: &[u8]) -> Result<Vec<&[u8]>, AllocError>
    ensures { IfOk result (λ parts. map (λ part. part.now) parts.items
        ≡ slice_split is_blank piece.now) }
{
    piece.split(|byte| is_blank(*byte)).collect(alloc)
}
