//! The directory's silo for other languages: the functions of `libgrain_directory.a`, as `examples/library/grain_directory.h` declares
//! them. A handle is a pointer to a silo that is open; what its caller in C owes, and has, the header says in words, and
//! `specs/Handle.antt` in the logic. The rules are in `docs/RULES.md#lines-of-a-silos-process`.
#![tactic(auto)]

ghost use types.Logic.{sem};
ghost use Rattle.silo_library.specs.Handle.{has_answered, has_opened, has_opened_with_token, is_handle};
ghost use Rattle.silo_library.specs.OpenSiloValue.{OpenSiloValue};

use std::alloc::Global;

mod open_silo;
mod status;
mod text;

pub use open_silo::{OpenSilo, may_cross};
pub use status::CallStatus;
pub use text::{Text, lies_as_in_c};

/// Opens the silo of a text, under the way of hashing that has the number (0 Sha256, 1 Stated), with so many points (1 to 128) and a
/// cache of so many hints (0 to 65536), and writes its handle. Answers 0; or else the handle is left as it was, and the number tells
/// the first that applies: 4 no silo, 5 no such way of hashing, 6 a number out of its range, 3 out of memory
/// (`docs/DEPLOYMENT.md#from-other-languages`).
#[unsafe(no_mangle)]
pub unsafe extern "C" fn grain_directory_open(
    alloc: Global,
    address: &[u8],
    hashing: u32,
    points: usize,
    cache: usize,
    handle: &mut *mut u8,
) -> u32
    ensures* { sem 𝓛 (has_opened address.now hashing points cache result handle.old handle.new) }
{
    match OpenSilo::open(alloc, address, hashing, points, cache) {
        Ok(silo) => {
            *handle = Box::into_raw(silo) as *mut u8;
            0
        }
        Err(status) => status,
    }
}

/// Opens it for a process that is started with that token: its silo joins by the line that carries the token, and by no other. Before
/// all else 7 is answered where the token isn't 1 to 64 bytes of visible ASCII.
#[unsafe(no_mangle)]
pub unsafe extern "C" fn grain_directory_open_with_token(
    alloc: Global,
    address: &[u8],
    token: &[u8],
    hashing: u32,
    points: usize,
    cache: usize,
    handle: &mut *mut u8,
) -> u32
    ensures* { sem 𝓛 (has_opened_with_token address.now token.now hashing points cache result handle.old handle.new) }
{
    match OpenSilo::open_with_token(alloc, address, token, hashing, points, cache) {
        Ok(silo) => {
            *handle = Box::into_raw(silo) as *mut u8;
            0
        }
        Err(status) => status,
    }
}

/// Answers a line, given without its line feed, and tells where the answer is: it may be read until the next call on the handle.
/// Answers 0 where the silo goes on, 1 where it is Dead by the line, 2 where it had ended before, and 3 where memory ran out: then it
/// has ended, and answers nothing.
#[unsafe(no_mangle)]
pub unsafe extern "C" fn grain_directory_line(
    handle: *mut u8,
    line: &[u8],
    answer: &mut Text,
) -> u32
    ghost before: { OpenSiloValue }
    requires* { sem 𝓛 (is_handle handle before) }
    ensures* { sem 𝓛 (has_answered handle before line.now result answer.new) }
{
    let silo = unsafe { &mut *(handle as *mut OpenSilo) };
    let status = silo.answer_line(line);
    let bytes = unsafe { &*(handle as *const OpenSilo) }.answer();
    *answer = Text {
        bytes: bytes.as_ptr(),
        length: bytes.len(),
    };
    status
}

/// Closes a silo, and frees all that it has.
#[unsafe(no_mangle)]
pub unsafe extern "C" fn grain_directory_close(alloc: Global, handle: *mut u8)
    ghost before: { OpenSiloValue }
    requires* { sem 𝓛 (is_handle handle before) }
{
    open_silo::close(unsafe { Box::from_raw(alloc, handle as *mut OpenSilo) });
}
