// Paths: the names of one, as places in its bytes.
ghost use Rattle.std.specs.Prelude.{◌≡◌, ◌≤◌, [], length, drop, slice_index_or};
ghost use Rattle.volume.specs.Parsed.{no_place, name_at, PartEnds, NamesOf, Parsed};
ghost use Rattle.volume.specs.Paths.{split_from, named};

use crate::names::is_name;

// How many names a path may have.
pub const DEPTH_LIMIT: usize = 8;

// Where a name stands in a path: from its first byte to behind its last.
#[derive(Clone, Copy)]
pub struct Place {
    pub start: usize,
    pub end: usize,
}

// The place of no name.
const NO_PLACE: Place = Place { start: 0, end: 0 };

// The names of a path: how many there are, and where each stands.
#[derive(Clone, Copy)]
pub struct PathNames {
    pub count: usize,
    pub places: [Place; DEPTH_LIMIT],
}

impl PathNames {
    // A name of the path that was parsed, by its number; where that has no place, nothing.
    pub fn name<'a>(&self, path: &'a [u8], number: usize) -> &'a [u8]
        ensures { result.now ≡ name_at path.now (slice_index_or self.now.places number no_place) }
    {
        let places: &[Place] = &self.places;
        if number >= places.len() {
            return &path[0..0];
        }
        let place = places[number];
        let start = place.start;
        let end = place.end.min(path.len());
        if start >= end {
            return &path[0..0];
        }
        &path[start..end]
    }
}

// The names of a path: none for "/" alone, else up to eight, each behind one "/". Anything else is no path.
pub fn parse_path(path: &[u8]) -> Option<PathNames>
    ensures { Parsed path.now result }
{
    if path.len() == 0 || path[0] != b'/' {
        return None;
    }
    if path.len() == 1 {
        return Some(PathNames {
            count: 0,
            places: [NO_PLACE; DEPTH_LIMIT],
        });
    }
    split_names(path)
}

// Where the part that begins at `start` ends: at the next "/", or where the path does.
fn part_end(path: &[u8], start: usize) -> usize
    requires { start ≤ length path.now }
    ensures { PartEnds path.now start result }
{
    for i in start..path.len() {
        if path[i] == b'/' {
            return i;
        }
    }
    path.len()
}

// The parts of a path behind its first byte, if all are names and not too many.
fn split_names(path: &[u8]) -> Option<PathNames>
    requires { 1 ≤ length path.now }
    ensures { NamesOf path.now (named (split_from [] (drop 1 path.now))) result }
{
    let mut places = [NO_PLACE; DEPTH_LIMIT];
    let mut count = 0;
    let mut start = 1;
    'parts: loop {
        let end = part_end(path, start);
        if count == DEPTH_LIMIT || !is_name(&path[start..end]) {
            return None;
        }
        places[count] = Place { start, end };
        count += 1;
        if end == path.len() {
            return Some(PathNames { count, places });
        }
        start = end + 1;
    }
}
