//! Bytes sent whole.

ghost use Rattle.line_loop.specs.Calls.{WritesText};
ghost use Rattle.line_loop.specs.Sent.{Sends};

use crate::Sink;

/// Writes all bytes, in as many writes as it takes; whether that was well. Each write is given all that is left, no write is tried
/// again, and one that takes nothing is a failure (`docs/RULES.md#the-program`).
pub fn send<W: Sink>(writer: &mut W, bytes: &[u8]) -> bool
    ensures sends { Sends bytes.now (W.contents writer.old) (W.contents writer.new) result }
    ensures calls { WritesText W.writes bytes.now writer.old writer.new result }
{
    let mut sent = 0;
    while sent < bytes.len() {
        let count = match writer.write_front(&bytes[sent..]) {
            Ok(count) => count,
            Err(_) => return false,
        };
        if count == 0 {
            return false;
        }
        sent += count;
    }
    true
}
