ghost use Rattle.std.specs.Prelude.{◌≡◌, ◌↔◌, IsTrue};
ghost use Rattle.seal_snapshot.specs.GatheringModel.{whole_of};

/// What the first page says of the whole snapshot.
#[derive(Clone, Copy, PartialEq, Eq)]
pub(crate) struct Whole {
    pub(crate) pages: u64,
    pub(crate) digest: [u8; 32],
}

pub(crate) fn same_wholes(one: &Option<Whole>, other: &Option<Whole>) -> bool
    ensures { IsTrue result ↔ (whole_of one.now ≡ whole_of other.now) }
{
    *one == *other
}
