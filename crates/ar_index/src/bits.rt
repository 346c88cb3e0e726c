// A set of numbers as bits, with three levels over them that summarise each the one below: the lowest number of all is
// found at four words, one a level, and the lowest after another at seven at most, up and down again. Nothing is walked
// over, so no step is counted.
//
//     root                 [ 1 0 0 .. ]      bit p: whether peak p isn't 0
//     peaks                [ 1 0 0 .. ]      bit t of all: whether word t of tops isn't 0
//     tops                 [ 0 1 0 1 .. ]    bit w of all: whether word w isn't 0
//     words    [ .. ] [ 0 0 1 .. ] [ .. ] [ 1 0 0 .. ]    bit i of word w: whether 64w + i is in the set
//
// The root is one word, so there are at most 64^4 numbers.
ghost use Rattle.std.specs.Prelude.{◌≡◌, ◌≢◌, ℕ, ◌+◌, ◌*◌, ◌/◌, ◌^◌, ◌<◌, ◌≤◌, ◌==◌, true, false};
ghost use Rattle.std.specs.Prelude.{[], ◌∷◌, length, slice_index_or, IfSome, IfNone};
ghost use Rattle.std.specs.Int.{bit_at};
ghost use Rattle.ar_index.specs.Bits.{has, IsBitSet, IsLeastFrom, IsNextNumber, IsTopped, AreTopped};

use crate::mask::{clear_bit, lowest_bit, set_bit};
use std::alloc::{AllocError, Global};
use std::marker::Model;
use std::slice::from_ref;

/// A set of numbers, below 64 for each of its words.
#[derive(Drop)]
pub struct Bits {
    words: Vec<u64>,
    tops: Vec<u64>,
    peaks: Vec<u64>,
    root: u64,
}

impl Model for Bits {
    ghost use Rattle.std.specs.Prelude.{ℕ, List};
    ghost use Rattle.ar_index.specs.Bits.{AreTopped};

    ghost Value = { List ℕ };

    ghost view = { λ b. b.words.items };

    ghost invariant = { λ b. AreTopped b.words.items b.tops.items b.peaks.items b.root };
}

// Whether bit `bit` is set.
fn is_set(mask: u64, bit: u16) -> bool
    requires { bit < 64 }
    ensures { result ≡ (bit_at mask bit == 1) }
{
    mask >> bit & 1 == 1
}

// Whether a word has a number.
fn has_any(word: u64) -> bool
    ensures some { 0 < word → result ≡ true }
    ensures none { word ≡ 0 → result ≡ false }
{
    word != 0
}

// The mask with a bit set, or cleared.
fn with_bit(mask: u64, bit: u16, is: bool) -> u64
    requires { bit < 64 }
    ensures here { (bit_at result bit == 1) ≡ is }
    ensures others { (i : ℕ) → i < 64 → i ≢ bit → bit_at result i ≡ bit_at mask i }
{
    if is {
        set_bit(mask, bit)
    } else {
        clear_bit(mask, bit)
    }
}

// The number of the lowest bit of a word that isn't 0.
fn first_in(words: &[u64], place: usize) -> usize
    requires there { place < length words.now }
    requires few { 64 * length words.now < 2 ^ 63 }
    requires some { 0 < slice_index_or words.now place 0 }
    ensures { IsLeastFrom words.now (64 * place) result }
{
    64 * place + usize::from(lowest_bit(words[place]))
}

// The lowest number in the set, of those after a number in its word.
fn after_in(words: &[u64], number: usize) -> Option<usize>
    requires there { number / 64 < length words.now }
    requires few { 64 * length words.now < 2 ^ 63 }
    ensures found { IfSome result (IsLeastFrom words.now (number + 1)) }
    ensures none { IfNone result ((i : ℕ) → number < i → i < 64 * (number / 64) + 64 → has words.now i ≡ false) }
{
    let rest = words[number / 64] >> (number % 64) >> 1;
    if rest == 0 {
        return None;
    }
    Some(number + 1 + usize::from(lowest_bit(rest)))
}

// The next peak after another that isn't 0.
fn peak_after(root: u64, peak: usize) -> Option<usize>
    requires { peak < 64 }
    ensures { IsNextNumber (root ∷ []) (peak + 1) result }
{
    after_in(from_ref(&root), peak)
}

// The next word of tops after another that isn't 0: under the same peak, or the first under the next.
fn top_after(peaks: &[u64], root: u64, top: usize) -> Option<usize>
    requires topped { IsTopped peaks.now (root ∷ []) }
    requires there { top / 64 < length peaks.now }
    ensures { IsNextNumber peaks.now (top + 1) result }
{
    match after_in(peaks, top) {
        Some(next) => Some(next),
        None => match peak_after(root, top / 64) {
            Some(peak) => Some(first_in(peaks, peak)),
            None => None,
        },
    }
}

// The next word after another that isn't 0: under the same word of tops, or the first under the next.
fn word_after(tops: &[u64], peaks: &[u64], root: u64, word: usize) -> Option<usize>
    requires tops { IsTopped tops.now peaks.now }
    requires peaks { IsTopped peaks.now (root ∷ []) }
    requires there { word / 64 < length tops.now }
    ensures { IsNextNumber tops.now (word + 1) result }
{
    match after_in(tops, word) {
        Some(next) => Some(next),
        None => match top_after(peaks, root, word / 64) {
            Some(top) => Some(first_in(tops, top)),
            None => None,
        },
    }
}

// The lowest number in the set after another: in the same word, or the first in the next.
fn number_after(
    words: &[u64],
    tops: &[u64],
    peaks: &[u64],
    root: u64,
    number: usize,
) -> Option<usize>
    requires topped { AreTopped words.now tops.now peaks.now root }
    requires there { number / 64 < length words.now }
    ensures { IsNextNumber words.now (number + 1) result }
{
    match after_in(words, number) {
        Some(next) => Some(next),
        None => match word_after(tops, peaks, root, number / 64) {
            Some(word) => Some(first_in(words, word)),
            None => None,
        },
    }
}

// The lowest number in the set.
fn lowest(words: &[u64], tops: &[u64], peaks: &[u64], root: u64) -> Option<usize>
    requires { AreTopped words.now tops.now peaks.now root }
    ensures { IsNextNumber words.now 0 result }
{
    if root == 0 {
        return None;
    }
    let peak = first_in(from_ref(&root), 0);
    let top = first_in(peaks, peak);
    let word = first_in(tops, top);
    Some(first_in(words, word))
}

// Puts a number into the set of a level, or takes it from the set. Says whether its word has a number now.
fn put_in(words: &mut Vec<u64>, number: usize, is: bool) -> bool
    requires { number / 64 < length words.old.items }
    ensures put { IsBitSet words.old.items number is words.new.items }
    ensures others { (w : ℕ) → w ≢ number / 64
        → slice_index_or words.new.items w 0 ≡ slice_index_or words.old.items w 0 }
    ensures some { 0 < slice_index_or words.new.items (number / 64) 0 → result ≡ true }
    ensures none { slice_index_or words.new.items (number / 64) 0 ≡ 0 → result ≡ false }
{
    let word = with_bit(words[number / 64], (number % 64) as u16, is);
    words[number / 64] = word;
    has_any(word)
}

impl Bits {
    ghost use Rattle.std.specs.Prelude.{◌≡◌, ◌+◌, ◌/◌, ◌^◌, ◌<◌, ◌≤◌, [], length, replicate, IfOk};
    ghost use Rattle.ar_index.specs.Bits.{has, IsBitSet, IsNextNumber};

    /// A set of no numbers, without a word.
    pub(crate) fn empty(alloc: Global) -> Bits
        ensures { result ≡ [] }
    {
        Bits {
            words: Vec::new(alloc),
            tops: Vec::new(alloc),
            peaks: Vec::new(alloc),
            root: 0,
        }
    }

    /// A set of no numbers, with this many words.
    pub(crate) fn with_words(alloc: Global, words: usize) -> Result<Bits, AllocError>
        requires { words ≤ 2 ^ 18 }
        ensures { IfOk result (λ bits. bits ≡ replicate words 0) }
    {
        let tops = (words + 63) / 64;
        Ok(Bits {
            words: vec![in alloc; 0; words]?,
            tops: vec![in alloc; 0; tops]?,
            peaks: vec![in alloc; 0; (tops + 63) / 64]?,
            root: 0,
        })
    }

    /// Whether a number is in the set.
    pub(crate) fn has(&self, number: usize) -> bool
        requires { number / 64 < length self.now }
        ensures { result ≡ has self.now number }
    {
        is_set(self.words[number / 64], (number % 64) as u16)
    }

    /// Puts a number into the set, or takes it from the set.
    pub(crate) fn put(&mut self, number: usize, is: bool)
        requires { number / 64 < length self.old }
        ensures { IsBitSet self.old number is self.new }
    {
        if self.has(number) == is {
            return;
        }
        let word = number / 64;
        let top = word / 64;
        let peak = top / 64;
        let in_word = put_in(&mut self.words, number, is);
        let in_top = put_in(&mut self.tops, word, in_word);
        let in_peak = put_in(&mut self.peaks, top, in_top);
        self.root = with_bit(self.root, (peak % 64) as u16, in_peak);
    }

    /// The lowest number in the set.
    pub(crate) fn first(&self) -> Option<usize>
        ensures { IsNextNumber self.now 0 result }
    {
        lowest(&self.words, &self.tops, &self.peaks, self.root)
    }

    /// The lowest number in the set after another.
    pub(crate) fn after(&self, number: usize) -> Option<usize>
        requires { number / 64 < length self.now }
        ensures { IsNextNumber self.now (number + 1) result }
    {
        number_after(&self.words, &self.tops, &self.peaks, self.root, number)
    }
}
