//! A line, word by word.
ghost use Rattle.std.specs.Prelude.{◌≡◌, ◌==◌, ◌+◌, ◌<◌, ◌≤◌, ◌↔◌, [], ◌∷◌, true, false, length, List, ℕ, IsTrue, IfNone, IfSome, slice_index, if◌then◌else◌};
ghost use Rattle.std.specs.Int.{trailing_zeros, w64};
ghost use Rattle.w16_script.specs.Words.{words_of, is_blank};

use std::simd::prelude::*;

/// Whether a byte is a space or a tab.
fn blank(byte: u8) -> bool
    ensures { result ≡ is_blank byte }
{
    byte == b' ' || byte == b'\t'
}

/// The text from its first byte on that is no blank.
fn without_blanks(text: &[u8]) -> &[u8]
    ensures same { words_of result.now ≡ words_of text.now }
    ensures begins { 0 < length result.now → is_blank (slice_index result.now 0) ≡ false }
{
    let mut rest = text;
    while let Some((first, more)) = rest.split_first() {
        if !blank(*first) {
            return rest;
        }
        rest = more;
    }
    rest
}

/// How many bytes are compared at once.
const LANES: usize = 16;

/// The place of the lowest bit of a mask of sixteen: 16, where there is none.
fn lowest_bit(mask: u64) -> usize
    ensures { result ≡ (if mask == 0 then 16 else trailing_zeros w64 mask) }
{
    if mask == 0 {
        LANES
    } else {
        mask.trailing_zeros() as usize
    }
}

/// How many of the sixteen bytes from a place on come before the first blank among them: all, where there is none.
fn blank_among(text: &[u8], at: usize) -> usize
    requires { at + LANES ≤ length text.now }
    ensures within { result ≤ LANES }
    ensures before { (k : ℕ) → at ≤ k → k < at + result → is_blank (slice_index text.now k) ≡ false }
    ensures stop { result < LANES → is_blank (slice_index text.now (at + result)) ≡ true }
{
    let bytes = u8x16::from_slice(&text[at..]);
    let blanks = bytes.simd_eq(u8x16::splat(b' ')) | bytes.simd_eq(u8x16::splat(b'\t'));
    lowest_bit(blanks.to_bitmask())
}

/// Where the first blank stands from a place on, found byte by byte: after the last byte, where there is none.
fn blank_from(text: &[u8], from: usize) -> usize
    requires { from ≤ length text.now }
    ensures within { (from ≤ result) × (result ≤ length text.now) }
    ensures before { (k : ℕ) → from ≤ k → k < result → is_blank (slice_index text.now k) ≡ false }
    ensures stop { result < length text.now → is_blank (slice_index text.now result) ≡ true }
{
    'bytes: for at in from..text.len() {
        if blank(text[at]) {
            return at;
        }
    }
    text.len()
}

/// How many bytes come before the first blank. Sixteen bytes are compared at once, as long as there are that many.
fn word_length(text: &[u8]) -> usize
    ensures within { result ≤ length text.now }
    ensures before { (k : ℕ) → k < result → is_blank (slice_index text.now k) ≡ false }
    ensures stop { result < length text.now → is_blank (slice_index text.now result) ≡ true }
{
    let mut at = 0;
    'lanes: while text.len() - at >= LANES {
        let before = blank_among(text, at);
        if before < LANES {
            return at + before;
        }
        at += LANES;
    }
    blank_from(text, at)
}

/// The first word and what stands after it. There is none only where there are but blanks.
#[tactic(auto, using(crate::proofs::WordsLemmas::splitting))]
pub fn split_word(text: &[u8]) -> Option<(&[u8], &[u8])>
    ensures some { IfSome result (λ split. words_of text.now ≡ split.0.now ∷ words_of split.1.now) }
    ensures filled { IfSome result (λ split. 0 < length split.0.now) }
    ensures none { IfNone result (words_of text.now ≡ []) }
{
    let rest = without_blanks(text);
    if rest.is_empty() {
        return None;
    }
    let length = word_length(rest);
    let (word, behind) = rest.split_at(length);
    Some((word, behind))
}

/// Whether a text has no words.
#[tactic(auto, using(crate::proofs::WordsLemmas::words_of_none))]
pub fn has_no_words(text: &[u8]) -> bool
    ensures { IsTrue result ↔ (words_of text.now ≡ []) }
{
    without_blanks(text).is_empty()
}
