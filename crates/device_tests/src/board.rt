// The memory board: which requests it refuses and why, and that it keeps what it was sent.
// It has no bad blocks and its power never goes, so only two of the four refusals come.
use crate::asking::{ERASED, OTHER, SENT, block_is};
use flash::{ReadableDevice, Refusal, WritableDevice};
use parts::MemoryBoard;
use std::test::Fail;

#[test]
fn refusals_have_their_numbers(rt: HostRuntime) {
    assert_eq!(rt; Refusal::Dark.number(), 12);
    assert_eq!(rt; Refusal::Outside.number(), 17);
    assert_eq!(rt; Refusal::Bad.number(), 18);
    assert_eq!(rt; Refusal::Used.number(), 19);
}

#[test]
fn programs_are_refused_in_order(rt: HostRuntime) -> Result<(), Fail> {
    let mut board = MemoryBoard::new(rt.alloc(), 64, 2)?;
    assert_eq!(rt; board.program(1, 16, &SENT), Ok(()));
    let table: [(u32, u32, &[u8], Result<(), Refusal>); 9] = [
        (2, 0, &SENT, Err(Refusal::Outside)),
        (u32::MAX, 0, &SENT, Err(Refusal::Outside)),
        (0, 64, &SENT, Err(Refusal::Outside)),
        (0, 0xffff_fff0, &SENT, Err(Refusal::Outside)),
        (0, 8, &SENT, Err(Refusal::Outside)),
        (1, 16, &SENT[0..15], Err(Refusal::Outside)),
        (1, 16, &[0xff; 17], Err(Refusal::Outside)),
        (1, 16, &OTHER, Err(Refusal::Used)),
        (1, 48, &OTHER, Ok(())),
    ];
    for (block, at, unit, answer) in table {
        assert_eq!(rt; board.program(block, at, unit), answer);
    }
    Ok(())
}

#[test]
fn board_keeps_what_was_sent(rt: HostRuntime) -> Result<(), Fail> {
    let mut board = MemoryBoard::new(rt.alloc(), 64, 2)?;
    board.program(0, 16, &SENT)?;
    board.program(1, 16, &OTHER)?;
    block_is(&rt, &board, 0, [ERASED, SENT, ERASED, ERASED])?;
    board.erase(0)?;
    block_is(&rt, &board, 0, [ERASED; 4])?;
    block_is(&rt, &board, 1, [ERASED, OTHER, ERASED, ERASED])
}

#[test]
fn board_answers_questions(rt: HostRuntime) -> Result<(), Fail> {
    let mut board = MemoryBoard::new(rt.alloc(), 64, 2)?;
    assert_eq!(rt; board.block_size(), 64);
    assert_eq!(rt; board.block_count(), 2);
    assert!(rt; board.is_good(0) && board.is_good(1) && !board.is_good(2));
    board.take_up();
    assert!(rt; !board.is_dark());
    assert_eq!(rt; board.erase(1), Ok(()));
    assert_eq!(rt; board.erase(2), Err(Refusal::Outside));
    assert_eq!(rt; board.erase(u32::MAX), Err(Refusal::Outside));
    Ok(())
}

#[test]
fn refused_reads_leave_the_buffer(rt: HostRuntime) -> Result<(), Fail> {
    let board = MemoryBoard::new(rt.alloc(), 64, 2)?;
    let refused: [(u32, u32); 5] = [(2, 0), (0, 61), (0, 64), (0, 65), (1, u32::MAX)];
    for (block, at) in refused {
        let mut out = [7; 4];
        assert_eq!(rt; board.read(block, at, &mut out), Err(Refusal::Outside));
        assert_eq!(rt; out, [7; 4]);
    }
    let mut out = [7; 4];
    assert_eq!(rt; board.read(1, 60, &mut out), Ok(()));
    assert_eq!(rt; out, [0xff; 4]);
    // A read of no bytes may stand at the end of a block, and not behind it.
    assert_eq!(rt; board.read(1, 64, &mut []), Ok(()));
    assert_eq!(rt; board.read(1, 65, &mut []), Err(Refusal::Outside));
    Ok(())
}
