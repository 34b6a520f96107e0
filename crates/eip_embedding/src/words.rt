ghost use Rattle.std.specs.Prelude.{◌≡◌};
ghost use Rattle.eip_embedding.specs.Words.{rounds_in};

use eip_text::read_count;

/// The greatest number of rounds.
const MOST: u32 = 1_000_000;

/// The number of rounds that a word names, from 0 to 1,000,000 in decimal digits without needless zero; None where it names none.
pub fn rounds_in(word: &str) -> Option<u32>
    ensures { result ≡ rounds_in word.now }
{
    match read_count(word) {
        Some(rounds) if rounds <= MOST => Some(rounds),
        _ => None,
    }
}
