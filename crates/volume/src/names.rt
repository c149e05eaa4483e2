// Names: which bytes are one, and which of two comes first.
ghost use Rattle.std.specs.Prelude.{◌≡◌};
ghost use Rattle.volume.specs.Tree.{plain, dots, is_name, before};

// How many bytes a name may have.
pub const NAME_LIMIT: usize = 64;

// Whether no byte is 0 or "/".
fn is_plain(bytes: &[u8]) -> bool
    ensures { result ≡ plain bytes.now }
{
    bytes.iter().all(|byte| *byte != 0 && *byte != b'/')
}

// Whether bytes are a name: 1 to 64 of them, none 0 or "/", and neither "." nor "..".
pub fn is_name(bytes: &[u8]) -> bool
    ensures { result ≡ is_name bytes.now }
{
    !bytes.is_empty() && bytes.len() <= NAME_LIMIT && is_plain(bytes) && !is_dots(bytes)
}

// Whether bytes are "." or "..".
fn is_dots(bytes: &[u8]) -> bool
    ensures { result ≡ dots bytes.now }
{
    matches!(bytes, b"." | b"..")
}

// Whether one name comes before another: by the first byte that differs, and a beginning before what it begins.
pub fn precedes(a: &[u8], b: &[u8]) -> bool
    ensures { result ≡ before a.now b.now }
{
    let shorter = a.len().min(b.len());
    for i in 0..shorter {
        if a[i] != b[i] {
            return a[i] < b[i];
        }
    }
    a.len() < b.len()
}
