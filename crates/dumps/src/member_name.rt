//! The names of the members of a dump's objects.

ghost use Rattle.std.specs.Prelude.{◌≡◌, true};
ghost use Rattle.std.specs.List.{list_all};
ghost use Rattle.dumps.specs.MemberNames.{text_of_name};
ghost use Rattle.dumps.specs.PlainText.{is_plain_byte};

/// The name of a member.
#[derive(Clone, Copy)]
pub(crate) enum MemberName {
    Activation,
    Current,
    Dead,
    Entries,
    From,
    Grain,
    Hashing,
    Held,
    Joined,
    Left,
    Nodes,
    Phase,
    Pieces,
    Places,
    Points,
    Range,
    Ring,
    Rows,
    Seen,
    Silo,
    State,
}

impl MemberName {
    /// The name as a dump has it. Each of its bytes stands for itself in a string.
    pub(crate) fn text(self) -> &'static [u8]
        ensures name { result.now ≡ text_of_name self }
        ensures plain { list_all is_plain_byte result.now ≡ true }
    {
        match self {
            MemberName::Activation => b"activation",
            MemberName::Current => b"current",
            MemberName::Dead => b"dead",
            MemberName::Entries => b"entries",
            MemberName::From => b"from",
            MemberName::Grain => b"grain",
            MemberName::Hashing => b"hashing",
            MemberName::Held => b"held",
            MemberName::Joined => b"joined",
            MemberName::Left => b"left",
            MemberName::Nodes => b"nodes",
            MemberName::Phase => b"phase",
            MemberName::Pieces => b"pieces",
            MemberName::Places => b"places",
            MemberName::Points => b"points",
            MemberName::Range => b"range",
            MemberName::Ring => b"ring",
            MemberName::Rows => b"rows",
            MemberName::Seen => b"seen",
            MemberName::Silo => b"silo",
            MemberName::State => b"state",
        }
    }
}
