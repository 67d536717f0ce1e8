//! What lines print is held back until all threads are joined.

ghost use Rattle.std.specs.Prelude.{◌≡◌, [], Some, false, length};
ghost use Rattle.line_loop.specs.Calls.{WritesKnown};
ghost use Rattle.console_threads.specs.Held.{Holds};

use line_loop::Sink;
use std::alloc::Global;
use std::io;

/// What was printed, and whether some of it was lost since memory ran out.
#[derive(Drop)]
pub(crate) struct Held {
    pub(crate) text: Vec<u8>,
    pub(crate) lost: bool,
}

impl Held {
    /// Nothing yet.
    pub(crate) fn new(alloc: Global) -> Held
        ensures text { result.text.items ≡ [] }
        ensures all { result.lost ≡ false }
    {
        Held {
            text: Vec::new(alloc),
            lost: false,
        }
    }
}

impl Sink for Held {
    ghost contents = { λ held. Some held.text.items };

    ghost writes = { λ old bytes took new. Holds old.lost (length bytes) took new.lost × WritesKnown (Some old.text.items) bytes took (Some new.text.items) };

    ghost known = { λ old bytes took new once. once.1 };

    fn write_front(&mut self, bytes: &[u8]) -> io::Result<usize> {
        match self.text.extend_from_slice(bytes) {
            Ok(()) => Ok(bytes.len()),
            Err(_) => {
                self.lost = true;
                Err(io::Error::from(io::ErrorKind::OutOfMemory))
            }
        }
    }
}
