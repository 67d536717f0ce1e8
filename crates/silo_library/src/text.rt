ghost use Rattle.silo_library.specs.Handle.{LiesAsInC};

/// Where bytes are, and how many: `struct grain_directory_text` of C.
#[repr(C)]
#[derive(Drop)]
pub struct Text {
    pub bytes: *const u8,
    pub length: usize,
}

/// A law: where the bytes are comes first, and then how many, as in the header.
pub fn lies_as_in_c()
    ensures { LiesAsInC }
{}
