ghost use Rattle.std.specs.Prelude.{◌≡◌};

use crate::kind::Kind;

// Data written as bytes and read back is the data.
pub fn data_through_bytes<K: Kind>(d: K::Data) -> K::Data
    ensures { result ≡ d }
{
    let (byte, word) = K::to_bytes(d);
    K::from_bytes(byte, word)
}

// Any byte and four bytes, read as data and written again, are those bytes.
pub fn bytes_through_data<K: Kind>(byte: u8, word: [u8; 4]) -> (u8, [u8; 4])
    ensures { result ≡ (byte, word) }
{
    let d = K::from_bytes(byte, word);
    K::to_bytes(d)
}
