//! Tables of words.
ghost use Rattle.std.specs.Prelude.{◌≡◌, ◌<◌, length, map, position};
ghost use Rattle.std.specs.Str.{bytes_eq};

/// The place of these bytes in a table.
pub fn place_in(table: &[&[u8]], bytes: &[u8]) -> Option<u8>
    requires { length table.now < 256 }
    ensures { result ≡ position (bytes_eq bytes.now) (map (λ entry. entry.now) table.now) }
{
    for (place, entry) in table.iter().enumerate() {
        if bytes == *entry {
            return Some(place as u8);
        }
    }
    None
}
