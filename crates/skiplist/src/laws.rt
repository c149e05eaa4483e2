// Theorems on the layout as a whole. Each is the contract of a function, which itself answers no more than a number that
// the theorem speaks of.
ghost use Rattle.std.specs.Prelude.{◌≡◌};
ghost use Rattle.skiplist.specs.Laws.{KnownPlaces, OneLocation, PlacesFollow, WalksEnd};

// Known places of a file in blocks of 512 bytes stand where they should, and known blocks have the words that they should.
// The answer is how many points are known.
pub fn known_places() -> u8
    ensures points { result ≡ 9 }
    ensures law { KnownPlaces }
{
    9
}

// A place stands in one block only, at one byte only. The answer is how many locations a place has.
pub fn one_location() -> u8
    ensures locations { result ≡ 1 }
    ensures law { OneLocation }
{
    1
}

// The first place is the first byte of block 0, and each place follows the one before it. The answer is the first place.
pub fn places_follow() -> u8
    ensures first { result ≡ 0 }
    ensures law { PlacesFollow }
{
    0
}

// The walk back to an earlier block ends, and takes at most two steps for each binary digit of the number of the block that
// it begins at. The answer is how many steps a digit may take.
pub fn walks_end() -> u8
    ensures steps { result ≡ 2 }
    ensures law { WalksEnd }
{
    2
}
