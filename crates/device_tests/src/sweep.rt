// Power that goes in each write of a commit: the log of the block is then what it was, nothing, or the whole new one.
// The blocks have 128 bytes, and the commits are those of the worked examples.
use crate::asking::{ERASED, unit_at};
use crate::cards::{FIRST, NEXT, part};
use flash::{ReadableDevice, Refusal, WritableDevice, is_erased, program_units, write_block};
use metalog::{Survey, write_first};
use parts::NorChip;
use std::alloc::Global;
use std::test::Fail;

// The log of block 0: its revision, how many commits are finished, and where they end.
fn log_of(chip: &NorChip) -> Result<(u32, usize, usize), Refusal> {
    let mut block = [0; 128];
    chip.read(0, 0, &mut block)?;
    let survey = Survey::of(&block);
    Ok((survey.revision, survey.commits, survey.end.offset))
}

// A chip whose block 0 has this content, and whose power goes in a write.
fn chip_with(heap: Global, content: &[u8], write: u32) -> Result<NorChip, Fail> {
    let mut chip = NorChip::new(heap, 128, 2, &[])?;
    write_block(&mut chip, 0, content)?;
    chip.go_dark_at(write);
    Ok(chip)
}

// The old log, of 112 bytes, goes with the erase, also with half of one. In the last unit only the padding is torn, so
// the commit is whole.
#[test]
fn cut_first_commit_is_whole_or_absent(rt: HostRuntime) -> Result<(), Fail> {
    let mut old = [0xff; 112];
    assert_eq!(rt;
        write_first(&mut old, 6, &[part(0x201, 0, &[0x33; 96])]),
        Ok(112)
    );
    let nothing = (0, 0, 0);
    let whole = (1, 1, 64);
    for (write, log) in [
        (1, nothing),
        (2, nothing),
        (3, nothing),
        (4, nothing),
        (5, whole),
    ] {
        let mut chip = chip_with(rt.alloc(), &old, write)?;
        assert_eq!(rt; log_of(&chip)?, (6, 1, 112));
        assert_eq!(rt; write_block(&mut chip, 0, &FIRST), Err(Refusal::Dark));
        chip.take_up();
        assert_eq!(rt; log_of(&chip)?, log);
    }
    let mut chip = chip_with(rt.alloc(), &old, 6)?;
    assert_eq!(rt; write_block(&mut chip, 0, &FIRST), Ok(()));
    assert_eq!(rt; log_of(&chip)?, whole);
    Ok(())
}

// The checksum stands in the second unit, over its half: torn there, the commit does not count.
#[test]
fn cut_append_leaves_the_log(rt: HostRuntime) -> Result<(), Fail> {
    for write in [1, 2] {
        let mut chip = chip_with(rt.alloc(), &FIRST, write)?;
        assert_eq!(rt; program_units(&mut chip, 0, 64, &NEXT), Err(Refusal::Dark));
        chip.take_up();
        assert_eq!(rt; log_of(&chip)?, (1, 1, 64));
        // Something is left behind the log, so nothing may be appended there.
        assert!(rt; !is_erased(&unit_at(&chip, 0, 64)?));
    }
    let mut chip = chip_with(rt.alloc(), &FIRST, 3)?;
    assert_eq!(rt; program_units(&mut chip, 0, 64, &NEXT), Ok(()));
    assert_eq!(rt; log_of(&chip)?, (1, 2, 96));
    assert_eq!(rt; unit_at(&chip, 0, 96)?, ERASED);
    Ok(())
}

// The documented tear: the ending tag is there, and of the checksum only one byte.
#[test]
fn torn_unit_is_as_documented(rt: HostRuntime) -> Result<(), Fail> {
    let mut chip = chip_with(rt.alloc(), &FIRST, 2)?;
    assert_eq!(rt; program_units(&mut chip, 0, 64, &NEXT), Err(Refusal::Dark));
    chip.take_up();
    let torn = *b"2.5\x70\x1f\xf8\x0a\x68\xff\xff\xff\xff\xff\xff\xff\xff";
    assert_eq!(rt; unit_at(&chip, 0, 80)?, torn);
    assert_eq!(rt; program_units(&mut chip, 0, 64, &NEXT), Err(Refusal::Used));
    assert_eq!(rt; program_units(&mut chip, 0, 96, &NEXT), Ok(()));
    // What is appended behind a torn commit is never read.
    assert_eq!(rt; log_of(&chip)?, (1, 1, 64));
    Ok(())
}
