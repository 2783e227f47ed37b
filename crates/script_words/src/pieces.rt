// The next line of a text, and the next word of a line.
ghost use Rattle.std.specs.Prelude.{◌≡◌, ℕ, ◌<◌, ◌≤◌, [], ◌∷◌, length, MatchOption, ◌≢◌, slice_index};
ghost use Rattle.std.specs.Iterator.{YieldsFirstRef, item_count};
ghost use Rattle.script_words.specs.Words.{pieces, lines, words};

// How many bytes stand before the first one that ends a piece.
fn piece_length(text: &[u8], end: u8) -> usize
    ensures is_within { result ≤ length text.now }
    ensures no_end_is_before { (k : ℕ) → k < result → slice_index text.now k ≢ end }
    ensures an_end_is_there { result < length text.now → slice_index text.now result ≡ end }
{
    text.iter().position(|b| *b == end).unwrap_or(text.len())
}

// The first piece of a text, and the text after it; none where the text is empty.
fn next_piece(text: &[u8], end: u8) -> Option<(&[u8], &[u8])>
    ensures is_the_first_piece { MatchOption result (pieces end text.now ≡ []) (λ p. (pieces end text.now ≡ p.0.now ∷ pieces end p.1.now) × (length p.1.now < length text.now)) }
{
    if text.is_empty() {
        return None;
    }
    let (piece, rest) = text.split_at(piece_length(text, end));
    if rest.is_empty() {
        return Some((piece, rest));
    }
    Some((piece, &rest[1..]))
}

// The first line of a text, and the text after it; none where the text is empty.
pub fn next_line(text: &[u8]) -> Option<(&[u8], &[u8])>
    ensures is_the_first_line { MatchOption result (lines text.now ≡ []) (λ p. (lines text.now ≡ p.0.now ∷ lines p.1.now) × (length p.1.now < length text.now)) }
{
    next_piece(text, b'\n')
}

// The first word of a line, and the line after it; none where there is no word.
#[tactic(auto, unfolding(crate::specs::Words::filled))]
pub fn next_word(line: &[u8]) -> Option<(&[u8], &[u8])>
    ensures is_the_first_word { MatchOption result (words line.now ≡ []) (λ p. (words line.now ≡ p.0.now ∷ words p.1.now) × (length p.1.now < length line.now)) }
{
    let mut rest = line;
    while let Some((piece, after)) = next_piece(rest, b' ') {
        if !piece.is_empty() {
            return Some((piece, after));
        }
        rest = after;
    }
    None
}

// The lines of a text, one after the other.
#[derive(Drop)]
pub struct Lines<'a>(pub &'a [u8]);

impl<'a> Iterator for Lines<'a> {
    type Item = &'a [u8];

    ghost next_gives = { YieldsFirstRef (λ s. lines s.0.now) };

    ghost remaining = { item_count (λ s. lines s.0.now) };

    fn next(&mut self) -> Option<&'a [u8]> {
        let (line, rest) = next_line(self.0)?;
        self.0 = rest;
        Some(line)
    }
}

// The words of a line, one after the other.
#[derive(Drop)]
pub struct Words<'a>(pub &'a [u8]);

impl<'a> Iterator for Words<'a> {
    type Item = &'a [u8];

    ghost next_gives = { YieldsFirstRef (λ s. words s.0.now) };

    ghost remaining = { item_count (λ s. words s.0.now) };

    fn next(&mut self) -> Option<&'a [u8]> {
        let (word, rest) = next_word(self.0)?;
        self.0 = rest;
        Some(word)
    }
}
