ghost use Rattle.std.specs.Io.BufRead.{strip_last};
ghost use Rattle.std.specs.Prelude.{◌≡◌};
ghost use Rattle.texts.specs.Words.{carriage_return};

/// A line without the carriage return at its end, if it has one; of several the last.
pub fn without_return(line: &[u8]) -> &[u8]
    ensures { result.now ≡ strip_last carriage_return line.now }
{
    match line.split_last() {
        Some((last, front)) if *last == b'\r' => front,
        _ => line,
    }
}
