// Commits as they are written: the worked examples byte for byte, and what is refused.
// Each limit is tried on both sides of its edge.
ghost use Rattle.std.specs.Prelude.{◌<◌};

use crate::cards::{FIRST, NEXT, SUPERBLOCK, part};
use metalog::{Part, Survey, Unwritable, write_first, write_next};

#[test]
fn commits_are_written_as_documented(rt: HostRuntime) {
    let mut block = [0; 64];
    let root = [part(0x0ff, 0, b"littlefs"), part(0x201, 0, &SUPERBLOCK)];
    assert_eq!(rt; write_first(&mut block, 1, &root), Ok(64));
    assert_eq!(rt; block, FIRST);
    let mut behind = [0; 32];
    let vega = [
        part(0x401, 1, b""),
        part(0x001, 1, b"vega"),
        part(0x201, 1, b"2.5"),
    ];
    assert_eq!(rt; write_next(&mut behind, 0x500f_fc10, &vega), Ok(32));
    assert_eq!(rt; behind, NEXT);
}

#[test]
fn documented_log_is_surveyed(rt: HostRuntime) {
    let survey = Survey::of(&FIRST);
    assert_eq!(rt; survey.revision, 1);
    assert_eq!(rt; survey.commits, 1);
    assert_eq!(rt; survey.end.offset, 64);
    assert_eq!(rt; survey.end.prior, 0x500f_fc10);
    assert_eq!(rt; survey.end.tag, 0x2c);
    assert_eq!(rt; survey.end.id, 0x3ff);
    // A block that is erased has no finished commit, whatever its revision word is.
    assert_eq!(rt; Survey::of(&[0xff; 512]).commits, 0);
}

// Where a first commit of these tags ends, in a buffer of N bytes.
fn first<const N: usize>(parts: &[Part<'_>]) -> Result<usize, Unwritable>
    requires { N < 4096 }
{
    let mut buffer = [0; N];
    write_first(&mut buffer, 1, parts)
}

// How long a commit of these tags behind others is, in a buffer of N bytes.
fn next<const N: usize>(parts: &[Part<'_>]) -> Result<usize, Unwritable>
    requires { N < 4096 }
{
    let mut buffer = [0; N];
    write_next(&mut buffer, 0x500f_fc10, parts)
}

#[test]
fn tags_past_the_limits_are_refused(rt: HostRuntime) {
    for kind in 0x500..0x510 {
        let bad = first::<64>(&[part(kind, 0, b"")]);
        assert_eq!(rt; bad, Err(Unwritable::BadTag));
    }
    let bad = first::<64>(&[part(0x800, 0, b"")]);
    assert_eq!(rt; bad, Err(Unwritable::BadTag));
    let bad = first::<64>(&[part(0x001, 1024, b"a")]);
    assert_eq!(rt; bad, Err(Unwritable::BadTag));
    let bad = first::<2048>(&[part(0x201, 0, &[0; 1024])]);
    assert_eq!(rt; bad, Err(Unwritable::BadTag));
    // The second tag is refused as the first would be, and a bad tag also where there is no room.
    let bad = first::<64>(&[part(0x001, 0, b"a"), part(0x500, 0, b"")]);
    assert_eq!(rt; bad, Err(Unwritable::BadTag));
    let bad = first::<0>(&[part(0x500, 0, b"")]);
    assert_eq!(rt; bad, Err(Unwritable::BadTag));
}

// 4 bytes of revision, 4 of the tag, 8 of the end: 16 with no data, and 1,040 with 1,023 bytes of data and one of padding.
#[test]
fn tags_at_the_limits_are_written(rt: HostRuntime) {
    for kind in [0, 0x4ff, 0x510, 0x7ff] {
        assert_eq!(rt; first::<16>(&[part(kind, 1023, b"")]), Ok(16));
    }
    let longest = [part(0x201, 0, &[0; 1023])];
    assert_eq!(rt; first::<1040>(&longest), Ok(1040));
    assert_eq!(rt; first::<1039>(&longest), Err(Unwritable::NoRoom));
}

// A commit with no tags takes 12 bytes, or 8 behind others, and the padding up to 16.
#[test]
fn room_is_needed_to_the_last_byte(rt: HostRuntime) {
    assert_eq!(rt; first::<16>(&[]), Ok(16));
    assert_eq!(rt; first::<15>(&[]), Err(Unwritable::NoRoom));
    assert_eq!(rt; first::<3>(&[]), Err(Unwritable::NoRoom));
    assert_eq!(rt; first::<0>(&[]), Err(Unwritable::NoRoom));
    assert_eq!(rt; next::<16>(&[]), Ok(16));
    assert_eq!(rt; next::<15>(&[]), Err(Unwritable::NoRoom));
    let root = [part(0x0ff, 0, b"littlefs"), part(0x201, 0, &SUPERBLOCK)];
    assert_eq!(rt; first::<64>(&root), Ok(64));
    assert_eq!(rt; first::<63>(&root), Err(Unwritable::NoRoom));
}
