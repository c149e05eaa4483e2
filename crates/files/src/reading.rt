// Reads of a file, from any place of it.
ghost use Rattle.volume.specs.Pair.{fault};
ghost use Rattle.files.specs.Bytes.{ReadsFile};

use crate::file::File;
use flash::ReadableDevice;
use volume::{Fault, What};

// Copies bytes of a file of so many bytes, whose last block is `head`, from a place on into `out`; the answer is how many. Where
// nothing is wrong with the file, they are as many as there is room for, or as the file has. A struct for the two numbers would only
// be made of an entry's, and taken apart here.
pub fn read_file<D: ReadableDevice>(
    device: &D,
    head: u32,
    length: u32,
    place: u32,
    out: &mut [u8],
) -> Result<usize, Fault>
    ensures { ReadsFile (D.meaning device.now) head length place (λ w. fault w head 0) out.old result out.new }
{
    let read = read_bytes(device, head, length, place, out);
    read.map_err(|what| what.at(head, 0))
}

// The same, with what is wrong alone.
fn read_bytes<D: ReadableDevice>(
    device: &D,
    head: u32,
    length: u32,
    place: u32,
    out: &mut [u8],
) -> Result<usize, What>
    ensures { ReadsFile (D.meaning device.now) head length place (λ w. w) out.old result out.new }
{
    let file = File::open(device, head, length)?;
    if place >= length {
        return Ok(0);
    }
    let count = out.len().min((length - place) as usize);
    file.copy(place, &mut out[0..count])?;
    Ok(count)
}
