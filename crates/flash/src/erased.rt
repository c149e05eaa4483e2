// Whether bytes are as an erase leaves them.
// A device asks it of a unit before it programs, and a reader of a block that may be empty.
ghost use Rattle.std.specs.Prelude.{◌≡◌};
ghost use Rattle.flash.specs.Write.{is_erased};

// Whether all the bytes are 0xff.
pub fn is_erased(bytes: &[u8]) -> bool
    ensures { result ≡ is_erased bytes.now }
{
    bytes.iter().all(|byte| *byte == 0xff)
}
