// What holds of every card. The contract of `laws_hold` is the laws, each a field of one record: the crate is proved only
// with all of them.
ghost use Rattle.std.specs.Prelude.{◌≡◌};
ghost use Rattle.volume.specs.Laws.{CardLaws};

// The answer is how many laws there are.
pub fn laws_hold() -> u8
    ensures laws { result ≡ 4 }
    ensures law { CardLaws }
{
    4
}
