ghost use Rattle.std.specs.List.{position_or_len};
ghost use Rattle.std.specs.Prelude.{◌≡◌, ◌≢◌, ◌≤◌, ◌==◌, All, MatchOption, length};
ghost use Rattle.texts.specs.Position.{IsBehindLast};

/// The position of the first such byte, or the length if there is none.
pub fn first_position(bytes: &[u8], wanted: u8) -> usize
    ensures first { result ≡ position_or_len (λ byte. byte == wanted) bytes.now }
    ensures within { result ≤ length bytes.now }
{
    for (position, byte) in bytes.iter().enumerate() {
        if *byte == wanted {
            return position;
        }
    }
    bytes.len()
}

/// The position just after the last such byte, if there is one.
pub fn after_last(bytes: &[u8], wanted: u8) -> Option<usize>
    ensures { MatchOption result (All (λ byte. byte ≢ wanted) bytes.now) (λ position. IsBehindLast wanted bytes.now position) }
{
    for position in (0..bytes.len()).rev() {
        if bytes[position] == wanted {
            return Some(position + 1);
        }
    }
    None
}
