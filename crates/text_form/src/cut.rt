//! The words of a line, cut once.

ghost use Rattle.std.specs.Prelude.{◌≡◌, ◌+◌, true, false, List, [], length, drop, cond, slice_index_or, MatchOption};
ghost use Rattle.text_form.specs.Cut.{words_left, has_empty};
ghost use Rattle.text_form.specs.Words.{words_of, word_at, has_empty_word};

use crate::words::{has_empty_word, next_word, word_at, word_count};
use std::marker::Model;

/// A line, with as many of its words as a line of the languages may have. Contracts see the line.
#[derive(Debug, Drop)]
pub struct LineWords<'a> {
    line: &'a [u8],
    count: usize,
    first: &'a [u8],
    second: &'a [u8],
    third: &'a [u8],
    fourth: &'a [u8],
    fifth: &'a [u8],
    sixth: &'a [u8],
}

impl<'a> Model for LineWords<'a> {
    ghost use Rattle.std.specs.Prelude.{ℕ, List};

    ghost Value = { List ℕ };

    ghost use Rattle.text_form.specs.CutWords.{AreCut};

    ghost view = { λ words. words.line.now };

    ghost invariant = { AreCut };
}

// A word and what is left behind it, where something was left and the word is not empty.
#[derive(Clone, Copy)]
struct Taken<'a> {
    word: &'a [u8],
    more: bool,
    rest: &'a [u8],
}

// The next word of what is left. None where it is empty.
#[inline(always)]
fn take_word<'a>(more: bool, rest: &'a [u8]) -> Option<Taken<'a>>
    ensures empty { MatchOption result (has_empty (words_left more rest.now) ≡ true) (λ taken. has_empty (words_left more rest.now) ≡ has_empty (words_left taken.more taken.rest.now)) }
    ensures word { MatchOption result (more ≡ true) (λ taken. taken.word.now ≡ slice_index_or (words_left more rest.now) 0 []) }
    ensures left { MatchOption result (more ≡ true) (λ taken. words_left taken.more taken.rest.now ≡ drop 1 (words_left more rest.now)) }
    ensures count { MatchOption result (more ≡ true) (λ taken. length (words_left more rest.now) ≡ cond more 1 0 + length (words_left taken.more taken.rest.now)) }
{
    if !more {
        return Some(Taken {
            word: &[],
            more: false,
            rest: &[],
        });
    }
    let (word, after) = next_word(rest);
    if word.is_empty() {
        return None;
    }
    match after {
        None => Some(Taken {
            word,
            more: false,
            rest: &[],
        }),
        Some(rest) => Some(Taken {
            word,
            more: true,
            rest,
        }),
    }
}

// How many words are left. None where one of them is empty.
fn count_left(more: bool, rest: &[u8]) -> Option<usize>
    ensures { MatchOption result (has_empty (words_left more rest.now) ≡ true) (λ count. (has_empty (words_left more rest.now) ≡ false) × (count ≡ length (words_left more rest.now))) }
{
    if !more {
        return Some(0);
    }
    if has_empty_word(rest) {
        return None;
    }
    Some(word_count(rest))
}

#[inline(always)]
fn one_if(more: bool) -> usize
    ensures { result ≡ cond more 1 0 }
{
    usize::from(more)
}

/// The words of a line. None where one of them is empty.
pub fn cut_words(line: &[u8]) -> Option<LineWords<'_>>
    ensures { MatchOption result (has_empty_word line.now ≡ true) (λ words. (words ≡ line.now) × (has_empty_word line.now ≡ false)) }
{
    let first = take_word(true, line)?;
    let second = take_word(first.more, first.rest)?;
    let third = take_word(second.more, second.rest)?;
    let fourth = take_word(third.more, third.rest)?;
    let fifth = take_word(fourth.more, fourth.rest)?;
    let sixth = take_word(fifth.more, fifth.rest)?;
    let left = count_left(sixth.more, sixth.rest)?;
    let count = 1
        + one_if(first.more)
        + one_if(second.more)
        + one_if(third.more)
        + one_if(fourth.more)
        + one_if(fifth.more)
        + left;
    Some(LineWords {
        line,
        count,
        first: first.word,
        second: second.word,
        third: third.word,
        fourth: fourth.word,
        fifth: fifth.word,
        sixth: sixth.word,
    })
}

impl<'a> LineWords<'a> {
    /// How many words the line has.
    #[inline(always)]
    pub fn count(&self) -> usize
        ensures { result ≡ length (words_of self.now) }
    {
        self.count
    }

    /// The word at a place, counted from 0. The empty word where the line has fewer words.
    #[inline(always)]
    pub fn at(&self, place: usize) -> &'a [u8]
        ensures { result.now ≡ word_at self.now place }
    {
        match place {
            0 => self.first,
            1 => self.second,
            2 => self.third,
            3 => self.fourth,
            4 => self.fifth,
            5 => self.sixth,
            _ => word_at(self.line, place),
        }
    }
}
