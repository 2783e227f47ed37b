// The number that a word writes.
ghost use Rattle.std.specs.Prelude.{◌≡◌, ◌+◌, ◌-◌, ◌*◌, ◌≤◌, true, MatchOption};
ghost use Rattle.script_words.specs.Numbers.{is_digit, number};

// A number with one more digit; none where the byte is no digit, or the number is too large.
fn with_digit(n: u32, b: u8) -> Option<u32>
    ensures is_ten_times_as_much_and_the_digit { MatchOption result (is_digit b ≡ true → n * 10 + (b - 48) ≤ 4294967295 → ⊥) (λ m. (is_digit b ≡ true) × (m ≡ n * 10 + (b - 48)) × (m ≤ 4294967295)) }
{
    match b {
        b'0'..=b'9' => n.checked_mul(10)?.checked_add(u32::from(b - b'0')),
        _ => None,
    }
}

// The number that a word writes, if it writes one.
#[tactic(auto, using(std::proofs::lemmas::Grind::common_steps, crate::proofs::Digits::digits))]
pub fn number_of(word: &[u8]) -> Option<u32>
    ensures is_the_number_if_it_is_one { result ≡ number word.now }
{
    if word.is_empty() {
        return None;
    }
    let mut n = 0u32;
    for b in word {
        n = with_digit(n, *b)?;
    }
    Some(n)
}
