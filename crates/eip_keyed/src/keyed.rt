ghost use Rattle.std.specs.Prelude.{◌≡◌, ◌<◌, None, length, IfSome, IfNone, slice_get};
ghost use Rattle.std.specs.Option.{option_map};
ghost use Rattle.eip_keyed.specs.Keyed.{found, keys_of, StandsAt};

use eip_text::Text;

/// The index of the first entry with this key, from 0; `None` exactly where no entry has it.
pub fn find<V>(entries: &[(Text, V)], key: &[u8]) -> Option<usize>
    ensures first { IfSome result (λ k. StandsAt key.now k entries.now) }
    ensures within { IfSome result (λ k. k < length entries.now) }
    ensures none { IfNone result (found key.now entries.now ≡ None) }
{
    for (place, entry) in entries.iter().enumerate() {
        if entry.0.bytes() == key {
            return Some(place);
        }
    }
    None
}

/// The value of the first entry with this key; `None` exactly where no entry has it.
pub fn value_of<'v, V>(entries: &'v [(Text, V)], key: &[u8]) -> Option<&'v V>
    ensures { option_map (λ v. v.now) result ≡ found key.now entries.now }
{
    for entry in entries {
        if entry.0.bytes() == key {
            return Some(&entry.1);
        }
    }
    None
}

/// The key of the entry with this index, from 0; `None` exactly where there are not so many.
pub fn key_at<V>(entries: &[(Text, V)], index: usize) -> Option<&Text>
    ensures { option_map (λ key. key.now) result ≡ slice_get (keys_of entries.now) index }
{
    match entries.get(index) {
        Some(entry) => Some(&entry.0),
        None => None,
    }
}
