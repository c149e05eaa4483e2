// Files as skip lists: where places stand at the edges of blocks and of the largest file, how many blocks there are, and
// which words a block begins with. The numbers of the largest file are those of a count block by block.
use skiplist::{BlockSize, Location, blocks_for, first_place, locate, pointers, stride};

const SIZES: [BlockSize; 4] = [
    BlockSize::Bytes512,
    BlockSize::Bytes1024,
    BlockSize::Bytes2048,
    BlockSize::Bytes4096,
];

// Place p stands in block n, at the byte p + 4 * (2n - ones(n)) - n * B.
#[test]
fn places_stand_where_they_should(rt: HostRuntime) {
    let table: [(u32, [(u32, u32); 4]); 5] = [
        (0, [(0, 0), (0, 0), (0, 0), (0, 0)]),
        (511, [(0, 511), (0, 511), (0, 511), (0, 511)]),
        (512, [(1, 4), (0, 512), (0, 512), (0, 512)]),
        (1020, [(2, 8), (0, 1020), (0, 1020), (0, 1020)]),
        (
            1_048_575,
            [(2080, 247), (1032, 55), (513, 2047), (256, 2043)],
        ),
    ];
    for (place, locations) in table {
        for (size, (block, byte)) in SIZES.iter().zip(locations.iter().copied()) {
            assert_eq!(rt; locate(*size, place), Some(Location { block, byte }));
        }
    }
}

// The last byte of block 0, the first of block 1 behind its word, and the first of block 2 behind its two words.
#[test]
fn blocks_follow_one_another(rt: HostRuntime) {
    for size in SIZES {
        let bytes = size.bytes();
        let last = Location {
            block: 0,
            byte: bytes - 1,
        };
        assert_eq!(rt; locate(size, bytes - 1), Some(last));
        assert_eq!(rt; locate(size, bytes), Some(Location { block: 1, byte: 4 }));
        assert_eq!(rt;
            locate(size, 2 * bytes - 4),
            Some(Location { block: 2, byte: 8 })
        );
        assert_eq!(rt; first_place(size, 2), Some(2 * bytes - 4));
        assert_eq!(rt; locate(size, 1_048_576), None);
        assert_eq!(rt; locate(size, u32::MAX), None);
    }
}

#[test]
fn files_have_so_many_blocks(rt: HostRuntime) {
    let table: [(u32, [Option<u32>; 4]); 8] = [
        (0, [Some(0), Some(0), Some(0), Some(0)]),
        (1, [Some(1), Some(1), Some(1), Some(1)]),
        (512, [Some(1), Some(1), Some(1), Some(1)]),
        (513, [Some(2), Some(1), Some(1), Some(1)]),
        (1020, [Some(2), Some(1), Some(1), Some(1)]),
        (1021, [Some(3), Some(1), Some(1), Some(1)]),
        (1_048_576, [Some(2081), Some(1033), Some(514), Some(257)]),
        (1_048_577, [None, None, None, None]),
    ];
    for (bytes, counts) in table {
        for (size, count) in SIZES.iter().zip(counts.iter().copied()) {
            assert_eq!(rt; blocks_for(*size, bytes), count);
        }
    }
}

#[test]
fn blocks_begin_with_words(rt: HostRuntime) {
    let table: [(u32, u32, u32); 9] = [
        (0, 0, 0),
        (1, 1, 512),
        (2, 2, 1020),
        (3, 1, 1524),
        (4, 3, 2032),
        (5, 1, 2532),
        (6, 2, 3040),
        (7, 1, 3544),
        (8, 4, 4052),
    ];
    for (block, words, place) in table {
        assert_eq!(rt; pointers(block), words);
        assert_eq!(rt; first_place(BlockSize::Bytes512, block), Some(place));
    }
}

// The farthest word that does not pass the goal: block 6 has the words to 5 and 4, block 8 those to 7, 6, 4 and 0.
#[test]
fn walks_take_the_farthest_word(rt: HostRuntime) {
    let table: [(u32, u32, Option<u32>); 9] = [
        (8, 0, Some(3)),
        (8, 1, Some(2)),
        (8, 5, Some(1)),
        (8, 7, Some(0)),
        (7, 0, Some(0)),
        (6, 0, Some(1)),
        (6, 5, Some(0)),
        (8, 8, None),
        (2, 8, None),
    ];
    for (from, to, word) in table {
        assert_eq!(rt; stride(from, to), word);
    }
}

#[test]
fn four_sizes_are_sizes(rt: HostRuntime) {
    for size in SIZES {
        assert_eq!(rt; BlockSize::try_from(size.bytes()).ok(), Some(size));
    }
    for bytes in [0, 256, 511, 513, 1536, 8192, u32::MAX] {
        assert_eq!(rt; BlockSize::try_from(bytes).ok(), None);
    }
}
