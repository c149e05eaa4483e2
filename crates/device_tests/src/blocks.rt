// Writing several units: a whole block anew, and units upward from an offset.
// Each outcome, done, refused or cut, with what it leaves in the block.
use crate::asking::{ERASED, OTHER, SENT, TORN, block_is};
use flash::{ReadableDevice, Refusal, WritableDevice, program_units, write_block};
use parts::NorChip;
use std::alloc::Global;
use std::test::Fail;

// The two units of the tests in one piece, the first of them twice, and all three.
const TWO: &[u8] = b"sixteen bytes .... and sixteen !";

const TWICE: &[u8] = b"sixteen bytes ..sixteen bytes ..";

const THREE: &[u8] = b"sixteen bytes .... and sixteen !sixteen bytes ..";

// A chip of four blocks, of which block 1 is bad, and block 0 is filled.
fn filled_chip(heap: Global) -> Result<NorChip, Fail> {
    let mut chip = NorChip::new(heap, 64, 4, &[1])?;
    for at in [0, 16, 32, 48] {
        chip.program(0, at, &OTHER)?;
    }
    Ok(chip)
}

#[test]
fn block_is_written_anew(rt: HostRuntime) -> Result<(), Fail> {
    let mut chip = filled_chip(rt.alloc())?;
    assert_eq!(rt; write_block(&mut chip, 0, &SENT), Ok(()));
    block_is(&rt, &chip, 0, [SENT, ERASED, ERASED, ERASED])?;
    assert_eq!(rt; write_block(&mut chip, 0, &[0x5a; 64]), Ok(()));
    block_is(&rt, &chip, 0, [[0x5a; 16]; 4])?;
    assert_eq!(rt; write_block(&mut chip, 0, &[]), Ok(()));
    block_is(&rt, &chip, 0, [ERASED; 4])
}

// None of these is a write, so the power does not go.
#[test]
fn refused_block_is_left_alone(rt: HostRuntime) -> Result<(), Fail> {
    let mut chip = filled_chip(rt.alloc())?;
    chip.go_dark_at(1);
    let table: [(u32, &[u8], Refusal); 6] = [
        (0, &[0; 17], Refusal::Outside),
        (0, &[0; 15], Refusal::Outside),
        (0, &[0; 80], Refusal::Outside),
        (1, &[0; 17], Refusal::Outside),
        (4, &SENT, Refusal::Outside),
        (1, &SENT, Refusal::Bad),
    ];
    for (block, content, refusal) in table {
        assert_eq!(rt; write_block(&mut chip, block, content), Err(refusal));
    }
    assert_eq!(rt; chip.writes_left(), 1);
    block_is(&rt, &chip, 0, [OTHER; 4])
}

// The power goes in the erase, in the first program or in the second.
#[test]
fn cut_block_is_written_up_to_the_cut(rt: HostRuntime) -> Result<(), Fail> {
    let table = [
        (1, [ERASED, ERASED, OTHER, OTHER]),
        (2, [TORN, ERASED, ERASED, ERASED]),
        (3, [SENT, TORN, ERASED, ERASED]),
    ];
    for (write, units) in table {
        let mut chip = filled_chip(rt.alloc())?;
        chip.go_dark_at(write);
        assert_eq!(rt; write_block(&mut chip, 0, TWICE), Err(Refusal::Dark));
        assert!(rt; chip.is_dark());
        assert_eq!(rt; write_block(&mut chip, 9, &[0; 17]), Err(Refusal::Dark));
        chip.take_up();
        block_is(&rt, &chip, 0, units)?;
    }
    Ok(())
}

#[test]
fn units_go_behind_an_offset(rt: HostRuntime) -> Result<(), Fail> {
    let mut chip = filled_chip(rt.alloc())?;
    assert_eq!(rt; program_units(&mut chip, 2, 16, TWO), Ok(()));
    block_is(&rt, &chip, 2, [ERASED, SENT, OTHER, ERASED])?;
    let table: [(u32, u32, &[u8], Result<(), Refusal>); 7] = [
        (3, 16, &[], Ok(())),
        (3, 64, &SENT, Err(Refusal::Outside)),
        (3, 32, THREE, Err(Refusal::Outside)),
        (3, 0, &[0; 17], Err(Refusal::Outside)),
        (3, 8, &SENT, Err(Refusal::Outside)),
        (3, u32::MAX, &SENT, Err(Refusal::Outside)),
        (1, 0, &SENT, Err(Refusal::Bad)),
    ];
    for (block, at, content, answer) in table {
        assert_eq!(rt; program_units(&mut chip, block, at, content), answer);
    }
    block_is(&rt, &chip, 3, [ERASED; 4])
}

// The unit at 32 is used: the one before it is done, and the one behind it is not asked.
#[test]
fn units_stop_at_a_used_one(rt: HostRuntime) -> Result<(), Fail> {
    let mut chip = filled_chip(rt.alloc())?;
    chip.program(2, 32, &SENT)?;
    assert_eq!(rt; program_units(&mut chip, 2, 16, THREE), Err(Refusal::Used));
    block_is(&rt, &chip, 2, [ERASED, SENT, SENT, ERASED])?;
    chip.go_dark_at(1);
    assert_eq!(rt; program_units(&mut chip, 3, 0, THREE), Err(Refusal::Dark));
    assert_eq!(rt;
        program_units(&mut chip, 3, 8, &[0; 17]),
        Err(Refusal::Dark)
    );
    chip.take_up();
    block_is(&rt, &chip, 3, [TORN, ERASED, ERASED, ERASED])
}
