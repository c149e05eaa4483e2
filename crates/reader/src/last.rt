// The name before, in the directory that is read: the names of a directory ascend.
ghost use Rattle.std.specs.Prelude.{◌≡◌, ◌≤◌, length};
ghost use Rattle.volume.specs.Check.{follows, name_fault};
ghost use Rattle.pairlist.specs.Visits.{ok_unless};
ghost use Rattle.reader.specs.Names.{last_of};

use arrayvec::ArrayVec;
use volume::{What, is_name, precedes};

#[derive(Drop)]
pub(crate) struct LastName {
    name: Option<ArrayVec<u8, 64>>,
}

impl LastName {
    // No name came before.
    pub(crate) fn new() -> LastName
        ensures { last_of result ≡ None }
    {
        LastName { name: None }
    }

    // Keeps a name.
    pub(crate) fn keep(&mut self, name: &[u8])
        requires { length name.now ≤ 64 }
        ensures { last_of self.new ≡ Some name.now }
    {
        self.name = ArrayVec::try_from(name).ok();
    }

    // Whether a name comes behind the one before.
    fn is_before(&self, name: &[u8]) -> bool
        ensures { result ≡ follows (last_of self.now) name.now }
    {
        self.name.as_ref().is_none_or(|last| precedes(last, name))
    }

    // A name where it stands must come behind the name before it, be a name, and not stand too deep.
    pub(crate) fn check(&self, name: &[u8], deep: bool) -> Result<(), What>
        ensures { result ≡ ok_unless (name_fault deep (last_of self.now) name.now) }
    {
        if !self.is_before(name) {
            return Err(What::NameOrder);
        }
        if !is_name(name) {
            return Err(What::Name);
        }
        if deep {
            return Err(What::Depth);
        }
        Ok(())
    }
}
