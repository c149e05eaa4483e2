// A decoded tag: what it is, which entry it is about, and how many bytes of data lie behind it.
ghost use Rattle.std.specs.Prelude.{◌≡◌};
ghost use Rattle.metalog.specs.Reader.{role_of};
ghost use Rattle.metalog.specs.Tag.{type_of, id_of, length_of, ends_commit, next_prior};

// What a tag does to the commit in which it stands.
#[derive(Clone, Copy, PartialEq, Eq, Debug)]
pub(crate) enum Role {
    Holds,
    Ends,
}

#[derive(Clone, Copy, PartialEq, Eq, Debug)]
pub(crate) struct Tag {
    pub word: u32,
}

impl Tag {
    pub(crate) fn kind(self) -> u32
        ensures { result ≡ type_of self.word }
    {
        (self.word >> 20) & 0x7ff
    }

    pub(crate) fn id(self) -> u32
        ensures { result ≡ id_of self.word }
    {
        (self.word >> 10) & 0x3ff
    }

    pub(crate) fn length(self) -> usize
        ensures { result ≡ length_of self.word }
    {
        (self.word & 0x3ff) as usize
    }

    pub(crate) fn ends_commit(self) -> bool
        ensures { result ≡ ends_commit self.word }
    {
        matches!(self.kind(), 0x500 | 0x501)
    }

    pub(crate) fn role(self) -> Role
        ensures { result ≡ role_of self.word }
    {
        if self.ends_commit() {
            Role::Ends
        } else {
            Role::Holds
        }
    }

    // What the tag behind this one is stored XORed with.
    pub(crate) fn next_prior(self) -> u32
        ensures { result ≡ next_prior self.word }
    {
        if self.ends_commit() {
            (self.word & 0x7fff_ffff) + ((self.kind() & 1) << 31)
        } else {
            self.word
        }
    }
}
