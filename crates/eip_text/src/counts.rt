ghost use Rattle.std.specs.Prelude.{◌≡◌, ◌↔◌, IsTrue, decimal};
ghost use Rattle.eip_text.specs.Counts.{count_of};

use itoa::Buffer;

/// The number whose decimal text this is: digits without sign and without needless zero, of a
/// value below 2^32.
pub fn read_count(text: &str) -> Option<u32>
    ensures { result ≡ count_of text.now }
{
    match text.parse::<u32>() {
        Ok(number) if is_decimal(number, text) => Some(number),
        _ => None,
    }
}

/// Whether this is the number's decimal text.
fn is_decimal(number: u32, text: &str) -> bool
    ensures { IsTrue result ↔ (text.now ≡ decimal number) }
{
    let mut buffer = Buffer::new();
    buffer.format(number) == text
}
