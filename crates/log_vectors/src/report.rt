// The line that says what the log of a block is: the survey of it, and then each finished commit as the reader gives it.
// The two are printed each for itself, so a line shows where they disagree.
use flash::is_erased;
use metalog::{End, Entry, Item, LogReader, Survey};
use std::alloc::{AllocError, Global};
use std::fmt::Write;

// Whether nothing but erased bytes lies behind an offset, so that a commit could be appended there.
fn behind(block: &[u8], offset: usize) -> &'static str {
    if block.get(offset..).is_some_and(|rest| is_erased(rest)) {
        "erased"
    } else {
        "used"
    }
}

// What the survey says of a block.
fn summary(heap: Global, block: &[u8]) -> anyhow::Result<String> {
    let Survey {
        revision,
        commits,
        end,
    } = Survey::of(block);
    if commits == 0 {
        return Ok(String::from_str(heap, "empty")?);
    }
    let End {
        offset,
        prior,
        tag,
        id,
    } = end;
    let behind = behind(block, offset);
    Ok(format!(in heap;
        "revision {revision:08x} commits {commits} end {offset} prior {prior:08x} tag {tag} id {id:03x} behind {behind}"
    )?)
}

// Adds a tag to the text of a commit.
fn add_entry(heap: Global, text: &mut String, entry: Entry<'_>) -> Result<(), AllocError> {
    let bytes = hex::encode(heap, entry.data)?;
    write!(
        text,
        " {:03x}:{:03x}:{}:{bytes}",
        entry.kind, entry.id, entry.offset
    )
}

// The whole line. Tags that belong to no finished commit are dropped.
pub(crate) fn log_line(heap: Global, block: &[u8]) -> anyhow::Result<String> {
    let mut line = summary(heap, block)?;
    let mut begun = String::new(heap);
    for item in LogReader::new(block) {
        match item {
            Item::Held(entry) => add_entry(heap, &mut begun, entry)?,
            Item::Ended(end) => {
                write!(
                    line,
                    " |{begun} end:{:03x}:{}:{}",
                    end.id, end.tag, end.offset
                )?;
                begun.clear();
            }
        }
    }
    Ok(line)
}
