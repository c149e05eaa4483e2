// The recorder: it counts what was done and what was torn, and nothing that was refused.
// It is laid over a chip, so that there are writes of all three sorts.
use crate::asking::{SENT, unit_at};
use flash::{ReadableDevice, Recorder, Refusal, WritableDevice, write_block};
use parts::NorChip;
use std::test::Fail;

// The programs, the erases and the take-ups that were counted.
fn counts(device: &Recorder<NorChip>) -> (u64, u64, u64) {
    (device.programs(), device.erases(), device.take_ups())
}

#[test]
fn recorder_counts_what_is_not_refused(rt: HostRuntime) -> Result<(), Fail> {
    let mut device = Recorder::new(NorChip::new(rt.alloc(), 64, 4, &[1])?);
    let table = [
        (0, 0, Ok(())),
        (0, 0, Err(Refusal::Used)),
        (1, 0, Err(Refusal::Bad)),
        (0, 8, Err(Refusal::Outside)),
    ];
    for (block, at, answer) in table {
        assert_eq!(rt; device.program(block, at, &SENT), answer);
    }
    assert_eq!(rt; device.erase(1), Err(Refusal::Bad));
    assert_eq!(rt; device.erase(4), Err(Refusal::Outside));
    assert_eq!(rt; counts(&device), (1, 0, 0));
    // An erase and four programs.
    assert_eq!(rt; write_block(&mut device, 2, &[0; 64]), Ok(()));
    device.take_up();
    assert_eq!(rt; counts(&device), (5, 1, 1));
    assert_eq!(rt; unit_at(&device.into_inner(), 0, 0)?, SENT);
    Ok(())
}

// The erase and one program are done, the second program is torn; what is asked in the dark is refused.
#[test]
fn recorder_counts_what_is_torn(rt: HostRuntime) -> Result<(), Fail> {
    let mut chip = NorChip::new(rt.alloc(), 64, 4, &[1])?;
    chip.go_dark_at(3);
    let mut device = Recorder::new(chip);
    assert_eq!(rt; write_block(&mut device, 0, &[0; 64]), Err(Refusal::Dark));
    assert_eq!(rt; (counts(&device), device.is_dark()), ((2, 1, 0), true));
    assert_eq!(rt; device.program(0, 48, &SENT), Err(Refusal::Dark));
    assert_eq!(rt; device.erase(0), Err(Refusal::Dark));
    assert_eq!(rt; counts(&device), (2, 1, 0));
    device.take_up();
    assert_eq!(rt; device.erase(0), Ok(()));
    assert_eq!(rt; counts(&device), (2, 2, 1));
    Ok(())
}

#[test]
fn recorder_counts_a_torn_erase(rt: HostRuntime) -> Result<(), Fail> {
    let mut chip = NorChip::new(rt.alloc(), 64, 4, &[1])?;
    chip.go_dark_at(1);
    let mut device = Recorder::new(chip);
    assert_eq!(rt; device.erase(0), Err(Refusal::Dark));
    assert_eq!(rt; counts(&device), (0, 1, 0));
    Ok(())
}
