//! Memory of the caller for bytes.
ghost use Rattle.std.specs.Prelude.{◌≡◌, ◌≢◌, ◌≤◌, ◌<◌, ◌⊎◌, length, take, drop};

/// Copies bytes to the caller and sets their number. Returns `code` if they fit into the room, else
/// 2.
pub(crate) fn handed(bytes: &[u8], room: &mut [u8], length_of: &mut usize, code: u32) -> u32
    requires { code ≢ 2 }
    ensures code { (result ≡ code) ⊎ (result ≡ 2) }
    ensures length { length_of.new ≡ length bytes.now }
    ensures done { result ≡ code → take length_of.new room.new ≡ bytes.now }
    ensures fits { result ≡ code → length_of.new ≤ length room.new }
    ensures behind { result ≡ code → drop length_of.new room.new ≡ drop length_of.new room.old }
    ensures needs { result ≡ 2 → length room.new < length_of.new }
    ensures unchanged { result ≡ 2 → room.new ≡ room.old }
    ensures room { length room.new ≡ length room.old }
{
    *length_of = bytes.len();
    if bytes.len() > room.len() {
        return 2;
    }
    room[..bytes.len()].copy_from_slice(bytes);
    code
}
