// What holds of every log that is read and written as here. The contract of `laws_hold` is the laws, each a field of one
// record: the crate is proved only with all of them.
ghost use Rattle.std.specs.Prelude.{◌≡◌};
ghost use Rattle.metalog.specs.Laws.{LogLaws};

// The answer is how many laws there are.
pub fn laws_hold() -> u8
    ensures laws { result ≡ 7 }
    ensures law { LogLaws }
{
    7
}
