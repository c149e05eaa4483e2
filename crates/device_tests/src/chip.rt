// The NOR chip: its bad blocks, the write in which its power goes, what that write leaves, and the chip taken up again.
// A bad block takes no program, so no unit of it is ever used: of the last two refusals never both apply.
use crate::asking::{ERASED, OTHER, SENT, TORN, block_is};
use flash::{ReadableDevice, Refusal, WritableDevice};
use parts::NorChip;
use std::test::Fail;

// Of the block numbers 1 and 9 that are given as bad, only the first is on the chip.
#[test]
fn bad_blocks_are_refused_behind_outside(rt: HostRuntime) -> Result<(), Fail> {
    let mut chip = NorChip::new(rt.alloc(), 64, 4, &[1, 9])?;
    assert!(rt; chip.is_good(0) && !chip.is_good(1) && chip.is_good(2) && chip.is_good(3));
    assert!(rt; !chip.is_good(4) && !chip.is_good(9));
    let table = [
        (1, 0, Err(Refusal::Bad)),
        (1, 8, Err(Refusal::Outside)),
        (9, 0, Err(Refusal::Outside)),
        (0, 0, Ok(())),
        (0, 0, Err(Refusal::Used)),
    ];
    for (block, at, answer) in table {
        assert_eq!(rt; chip.program(block, at, &SENT), answer);
    }
    assert_eq!(rt; chip.erase(1), Err(Refusal::Bad));
    assert_eq!(rt; chip.erase(9), Err(Refusal::Outside));
    // A bad block can be read.
    block_is(&rt, &chip, 1, [ERASED; 4])
}

#[test]
fn refused_writes_are_not_counted(rt: HostRuntime) -> Result<(), Fail> {
    let mut chip = NorChip::new(rt.alloc(), 64, 4, &[1])?;
    chip.go_dark_at(3);
    assert_eq!(rt; chip.erase(0), Ok(()));
    assert_eq!(rt; chip.erase(1), Err(Refusal::Bad));
    assert_eq!(rt; chip.erase(4), Err(Refusal::Outside));
    assert_eq!(rt; chip.program(0, 0, &SENT), Ok(()));
    assert_eq!(rt; chip.program(0, 0, &SENT), Err(Refusal::Used));
    assert_eq!(rt; (chip.writes_left(), chip.is_dark()), (1, false));
    assert_eq!(rt; chip.program(0, 16, &SENT), Err(Refusal::Dark));
    assert!(rt; chip.is_dark());
    Ok(())
}

#[test]
fn dark_chip_refuses_everything_else(rt: HostRuntime) -> Result<(), Fail> {
    let mut chip = NorChip::new(rt.alloc(), 64, 4, &[1])?;
    chip.go_dark_at(1);
    for block in [0, 0, 1, 9] {
        assert_eq!(rt; chip.erase(block), Err(Refusal::Dark));
        assert_eq!(rt; chip.program(block, 3, &[]), Err(Refusal::Dark));
        let mut out = [7; 4];
        assert_eq!(rt; chip.read(block, 0, &mut out), Err(Refusal::Dark));
        assert_eq!(rt; out, [7; 4]);
    }
    assert_eq!(rt; (chip.block_size(), chip.block_count()), (64, 4));
    assert!(rt; chip.is_good(0) && !chip.is_good(1) && chip.is_dark());
    Ok(())
}

#[test]
fn program_is_torn_at_half(rt: HostRuntime) -> Result<(), Fail> {
    let mut chip = NorChip::new(rt.alloc(), 64, 4, &[])?;
    chip.program(2, 0, &OTHER)?;
    chip.go_dark_at(1);
    assert_eq!(rt; chip.program(2, 16, &SENT), Err(Refusal::Dark));
    chip.take_up();
    block_is(&rt, &chip, 2, [OTHER, TORN, ERASED, ERASED])
}

#[test]
fn erase_is_torn_at_half(rt: HostRuntime) -> Result<(), Fail> {
    let mut chip = NorChip::new(rt.alloc(), 64, 4, &[])?;
    for at in [0, 16, 32, 48] {
        chip.program(2, at, &SENT)?;
        chip.program(3, at, &OTHER)?;
    }
    chip.go_dark_at(1);
    assert_eq!(rt; chip.erase(2), Err(Refusal::Dark));
    chip.take_up();
    block_is(&rt, &chip, 2, [ERASED, ERASED, SENT, SENT])?;
    block_is(&rt, &chip, 3, [OTHER; 4])
}

#[test]
fn taken_up_chip_stays_on(rt: HostRuntime) -> Result<(), Fail> {
    let mut chip = NorChip::new(rt.alloc(), 64, 4, &[1])?;
    chip.program(0, 0, &SENT)?;
    chip.go_dark_at(1);
    assert_eq!(rt; chip.erase(2), Err(Refusal::Dark));
    chip.take_up();
    assert!(rt; !chip.is_dark() && chip.is_good(0) && !chip.is_good(1) && chip.writes_left() == 0);
    block_is(&rt, &chip, 0, [SENT, ERASED, ERASED, ERASED])?;
    for at in [16, 32, 48] {
        assert_eq!(rt; chip.program(0, at, &OTHER), Ok(()));
    }
    assert_eq!(rt; (chip.erase(0), chip.is_dark()), (Ok(()), false));
    Ok(())
}

// Powering up a chip whose power is on changes nothing, and a chip that is told anew goes dark again.
#[test]
fn chip_is_told_anew(rt: HostRuntime) -> Result<(), Fail> {
    let mut chip = NorChip::new(rt.alloc(), 64, 4, &[])?;
    for _ in 0..2 {
        chip.go_dark_at(2);
        chip.take_up();
        assert_eq!(rt; chip.erase(0), Ok(()));
        assert_eq!(rt; chip.erase(0), Err(Refusal::Dark));
    }
    chip.take_up();
    chip.go_dark_at(1);
    chip.go_dark_at(0);
    assert_eq!(rt; chip.erase(0), Ok(()));
    Ok(())
}
