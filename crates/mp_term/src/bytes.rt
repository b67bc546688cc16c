//! Bytes that are compared one by one, as suits what is short.
ghost use Rattle.std.specs.Prelude.{◌≡◌, bytes_eq};

/// The bytes are the same. It takes no memory.
pub fn same_bytes(a: &[u8], b: &[u8]) -> bool
    ensures { result ≡ bytes_eq a.now b.now }
{
    if a.len() != b.len() {
        return false;
    }
    let mut place = a.len();
    while 0 < place {
        place -= 1;
        if a[place] != b[place] {
            return false;
        }
    }
    true
}
