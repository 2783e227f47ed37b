// The header's reader: from state to state, a byte at a time.
ghost use Rattle.std.specs.Prelude.{◌≡◌, ℕ, ◌<◌, ◌≤◌, [], ◌∷◌, length, take, drop, Option, IfSome, MatchResult};
ghost use Rattle.pgm.specs.Grammar.{HeaderText, Unfitting};
ghost use Rattle.pgm.specs.Machine.{class, next, Decimal, Counted, scan};

use crate::read::Picture;

// What a byte is to the header's reader.
#[derive(Clone, Copy)]
enum Class {
    LetterP,
    Hash,
    Newline,
    Blank,
    Digit(u8),
    Other,
}

fn class_of(b: u8) -> Class
    ensures is_the_class { result ≡ class b }
    ensures digits_are_decimal { Decimal result }
{
    match b as char {
        'P' => Class::LetterP,
        '#' => Class::Hash,
        '\u{a}' => Class::Newline,
        '\u{9}'..='\u{d}' | ' ' => Class::Blank,
        '0'..='9' => Class::Digit(b - b'0'),
        _ => Class::Other,
    }
}

// Where the reader is: in the magic, in the blanks before a number, or in the number.
#[derive(Clone, Copy)]
enum State {
    // Before the letter of the magic.
    Magic,
    // Before its digit.
    Version,
    // Before blanks, of which there must be some.
    Gap,
    // In blanks; a number may begin.
    Spaced,
    // In a comment.
    Comment,
    // In a number: its value, and how many digits it has so far.
    Number(u32, u8),
    // A number has ended before this byte.
    Past(u32),
    // This byte does not fit.
    Unfit,
}

impl State {
    fn step(self, class: Class) -> State
        requires { Counted self × Decimal class }
        ensures is_the_next_state { result ≡ next self class }
    {
        match (self, class) {
            (State::Magic, Class::LetterP) => State::Version,
            (State::Version, Class::Digit(5)) => State::Gap,
            (State::Gap | State::Spaced, Class::Blank | Class::Newline) => State::Spaced,
            (State::Gap | State::Spaced, Class::Hash) => State::Comment,
            (State::Comment, Class::Newline) => State::Spaced,
            (State::Comment, _) => State::Comment,
            (State::Spaced, Class::Digit(d)) => State::Number(d as u32, 1),
            (State::Number(n, k), Class::Digit(d)) if k < 5 => State::Number(
                n * 10 + d as u32,
                k + 1,
            ),
            (State::Number(_, _), Class::Digit(_)) => State::Unfit,
            (State::Number(n, _), _) => State::Past(n),
            _ => State::Unfit,
        }
    }
}

// The bytes of a file and the place that its reader has come to.
#[derive(Drop)]
struct Reader<'a> {
    bytes: &'a [u8],
    at: usize,
}

impl Reader<'_> {
    // The next number of the header, or none; the reader then stands at the byte that ended the reading.
    fn number(&mut self, from: State) -> Option<u32>
        requires { Counted from × (self.old.at ≤ length self.old.bytes.now) }
        ensures scans_a_number { ◌≡◌ {A = Option ℕ × ℕ} (result, self.new.at) (scan from self.old.at (drop self.old.at self.old.bytes.now)) }
        ensures stops_at_a_byte { IfSome result (λ n. self.new.at < length self.old.bytes.now) }
        ensures stays_within { self.new.at ≤ length self.old.bytes.now }
        ensures keeps_the_bytes { self.new.bytes.now ≡ self.old.bytes.now }
    {
        // the place is part of the answer, so the reader keeps it
        let mut state = from;
        while self.at < self.bytes.len() {
            state = state.step(class_of(self.bytes[self.at]));
            match state {
                State::Past(n) => return Some(n),
                State::Unfit => return None,
                _ => self.at += 1,
            }
        }
        None
    }
}

// The picture that a header tells of, and how many bytes it takes.
#[derive(Clone, Copy)]
pub(crate) struct Header {
    pub picture: Picture,
    pub length: usize,
}

// The header that the file begins with, or the place of the first byte that does not fit one.
pub(crate) fn read_header(bytes: &[u8]) -> Result<Header, usize>
    ensures is_the_header_or_where_it_ends { MatchResult result
        (λ h. (h.length ≤ length bytes.now) × HeaderText (h.picture.columns ∷ h.picture.rows ∷ h.picture.top ∷ []) (take h.length bytes.now))
        (λ i. Unfitting bytes.now i) }
{
    let mut reader = Reader { bytes, at: 0 };
    let Some(columns) = reader.number(State::Magic) else {
        return Err(reader.at);
    };
    let Some(rows) = reader.number(State::Gap) else {
        return Err(reader.at);
    };
    let Some(top) = reader.number(State::Gap) else {
        return Err(reader.at);
    };
    let at = reader.at;
    match class_of(bytes[at]) {
        Class::Blank | Class::Newline => Ok(Header {
            picture: Picture { columns, rows, top },
            length: at + 1,
        }),
        _ => Err(at),
    }
}
