// Splits a line at its spaces and parses the words, without allocating. An empty word is an error, so that spacing is
// unique.
ghost use Rattle.std.specs.Prelude.{◌≡◌, ◌∷◌, [], ◌++◌, ◌-◌, ◌↔◌, ℕ, List, length, replicate, true, false, IsSome};
ghost use Rattle.std.specs.Prelude.{IfSome, IfNone, OnSome, Ok, map, take, min, ◌==◌};
ghost use Rattle.std.specs.List.{list_all, list_any, position_or_len, slice_split};
ghost use Rattle.hex.specs.Hex.{decode_of};
ghost use Rattle.ar_language.specs.Words.{IsBytePair, IsBlockWord};

/// The most words that are split off. No order has more than seven, so that an eighth is one too many.
pub const MOST_WORDS: usize = 8;

/// Stores the first words of a line in `words`, up to 8, and returns their number. None: one of the line's words is
/// empty. Each space separates two words, so that doubled, leading and trailing spaces make empty ones.
pub fn first_words<'a>(line: &'a str, words: &mut [&'a str; MOST_WORDS]) -> Option<usize>
    ensures none { IfNone result
        (list_any (λ word. length word == 0) (slice_split (λ byte. byte == 32) line.now) ≡ true) }
    ensures some { OnSome result
        (list_any (λ word. length word == 0) (slice_split (λ byte. byte == 32) line.now) ≡ false) }
    ensures count { IfSome result (λ count. count ≡ min 8 (length (slice_split (λ byte. byte == 32) line.now))) }
    ensures words { IfSome result (λ count. take count (map (λ word. word.now) words.new)
        ≡ take 8 (slice_split (λ byte. byte == 32) line.now)) }
{
    let mut count = 0;
    let mut rest = line;
    while !rest.is_empty() {
        let end = word_end(rest);
        if end == 0 {
            return None;
        }
        if count < MOST_WORDS {
            words[count] = &rest[..end];
            count += 1;
        }
        if end == rest.len() {
            return Some(count);
        }
        rest = &rest[end + 1..];
    }
    // The line is empty, or ends with a space.
    None
}

// The end of a text's first word: a space, or the end of the text.
fn word_end(text: &str) -> usize
    ensures { result ≡ position_or_len (λ byte. byte == 32) text.now }
{
    let bytes = text.as_bytes();
    bytes
        .iter()
        .position(|byte| *byte == b' ')
        .unwrap_or(bytes.len())
}

/// Parses a byte: two hexadecimal digits of either case.
pub fn byte(word: &str) -> Option<u8>
    ensures valid { IsSome result ↔ IsBytePair word.now }
    ensures value { IfSome result (λ byte. decode_of word.now ≡ Ok (byte ∷ [])) }
{
    let mut byte = [0];
    if hex::decode_to_slice(word, &mut byte).is_err() {
        return None;
    }
    Some(byte[0])
}

/// Parses a command block: 1 to 16 bytes as hexadecimal digits, padded with zeros to 16 bytes.
pub fn block(word: &str) -> Option<[u8; 16]>
    ensures valid { IsSome result ↔ IsBlockWord word.now }
    ensures value { IfSome result (λ cdb. (bytes : List ℕ) × (decode_of word.now ≡ Ok bytes)
        × (cdb ≡ bytes ++ replicate (16 - length bytes) 0)) }
{
    if word.is_empty() || word.len() > 32 {
        return None;
    }
    let mut cdb = [0; 16];
    let bytes = &mut cdb[..word.len() / 2];
    if hex::decode_to_slice(word, bytes).is_err() {
        return None;
    }
    Some(cdb)
}
