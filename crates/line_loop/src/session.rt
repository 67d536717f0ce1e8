//! A stream of lines on its way.

ghost use Rattle.std.specs.Prelude.{◌≡◌, ◌+◌, ◌-◌, ◌<◌, ◌≤◌, [], IfOk, Some, drop, false, length, take, vec_len};
ghost use Rattle.line_loop.specs.Pieces.{IsEndedAfter, IsOnePiece};

use crate::step::Step;
use crate::{Ended, LinePlayer};
use memchr::memchr;
use std::alloc::{AllocError, Global};

/// How many bytes are read at once at most.
pub(crate) const CHUNK: usize = 65_536;

/// How many bytes of a line that is begun have room in front of a chunk from the start: a script's longest, and a carriage return.
const FIRST_KEPT: usize = 8_193;

/// A stream of lines on its way: what was read and not played yet, and what is printed and not written yet.
#[derive(Drop)]
pub(crate) struct Session {
    pub(crate) alloc: Global,
    /// The number of the next line, from 1.
    pub(crate) number: u64,
    /// What was read. The bytes from `start` to `end` are still to be played; no line feed stands in those up to `searched`.
    pub(crate) bytes: Vec<u8>,
    pub(crate) start: usize,
    pub(crate) searched: usize,
    pub(crate) end: usize,
    /// Whether the line that is begun is too long, and was played: what comes of it is passed over.
    pub(crate) passes_over: bool,
    /// How many more bytes may be read.
    pub(crate) left: u64,
    /// Whether the input is at its end.
    pub(crate) ended: bool,
    /// What waits to be written.
    pub(crate) out: Vec<u8>,
    ghost begun: { start ≤ searched },
    ghost searched_within: { searched ≤ end },
    ghost within: { end ≤ vec_len bytes },
    ghost one_piece: { IsOnePiece (take (searched - start) (drop start bytes.items)) },
    ghost counted: { number + ((end - start) + left) ≤ 18446744073709551615 },
}

impl Session {
    ghost use Rattle.line_loop.specs.Progress.{PlaysPart, Steps, behind_line, first_progress, progress};

    /// Before the first line, where so many bytes of a line are kept, and so many may be read.
    pub(crate) fn new(
        alloc: Global,
        most_kept: usize,
        most_read: u64,
    ) -> Result<Session, AllocError>
        requires countable { most_read < 18446744073709551615 }
        ensures first { IfOk result (λ session. progress session ≡ first_progress most_read) }
        ensures room { IfOk result (λ session. vec_len session.bytes ≤ 65536 + most_kept) }
    {
        let bytes = vec![in alloc; 0; CHUNK + most_kept.min(FIRST_KEPT)]?;
        Ok(Session {
            alloc,
            number: 1,
            bytes,
            start: 0,
            searched: 0,
            end: 0,
            passes_over: false,
            left: most_read,
            ended: false,
            out: Vec::new(alloc),
        })
    }

    /// Has the next line played, if it is there.
    pub(crate) fn step<P: LinePlayer>(&mut self, player: &mut P) -> Step<P::Stop>
        requires short { length (progress self.old).waiting < 32768 }
        ensures steps { Steps P.plays P.MOST_KEPT P.MOST_READ player.old (progress self.old) player.new (progress self.new) result }
        ensures room { vec_len self.new.bytes ≡ vec_len self.old.bytes }
    {
        match self.find_line_feed() {
            Some(count) => self.step_ended(player, count),
            None => self.step_begun(player),
        }
    }

    // Behind how many of the bytes that are to be played the first line feed stands. None of them is searched twice.
    fn find_line_feed(&mut self) -> Option<usize>
        ensures same { progress self.new ≡ progress self.old }
        ensures room { vec_len self.new.bytes ≡ vec_len self.old.bytes }
        ensures found { IsEndedAfter (progress self.old).held result }
    {
        let before = self.searched - self.start;
        match memchr(b'\n', part(&self.bytes, self.searched, self.end)) {
            Some(count) => Some(before + count),
            None => {
                self.searched = self.end;
                None
            }
        }
    }

    // Has the line played whose end stands behind so many bytes, or passes over what is left of one that is too long.
    fn step_ended<P: LinePlayer>(&mut self, player: &mut P, count: usize) -> Step<P::Stop>
        requires short { length (progress self.old).waiting < 32768 }
        requires found { IsEndedAfter (progress self.old).held (Some count) }
        ensures steps { Steps P.plays P.MOST_KEPT P.MOST_READ player.old (progress self.old) player.new (progress self.new) result }
        ensures room { vec_len self.new.bytes ≡ vec_len self.old.bytes }
    {
        if self.passes_over {
            self.go_behind(count);
            return Step::Played;
        }
        match self.play_line(player, count, true) {
            None => {
                self.go_behind(count);
                Step::Played
            }
            Some(ended) => Step::Ends(ended),
        }
    }

    // Has the last line played, or one that is too long; or more has to be read.
    fn step_begun<P: LinePlayer>(&mut self, player: &mut P) -> Step<P::Stop>
        requires short { length (progress self.old).waiting < 32768 }
        requires begun { IsOnePiece (progress self.old).held }
        ensures steps { Steps P.plays P.MOST_KEPT P.MOST_READ player.old (progress self.old) player.new (progress self.new) result }
        ensures room { vec_len self.new.bytes ≡ vec_len self.old.bytes }
    {
        if self.passes_over {
            self.pass_over();
            return if self.ended {
                Step::Ends(Ended::AtEnd)
            } else {
                Step::Wants
            };
        }
        let count = self.end - self.start;
        if count > P::MOST_KEPT {
            return self.step_long(player, count);
        }
        if !self.ended {
            return Step::Wants;
        }
        match self.play_line(player, count, false) {
            None => Step::Ends(Ended::AtEnd),
            Some(ended) => Step::Ends(ended),
        }
    }

    // Has a line played that is too long: what comes of it makes no difference.
    fn step_long<P: LinePlayer>(&mut self, player: &mut P, count: usize) -> Step<P::Stop>
        requires short { length (progress self.old).waiting < 32768 }
        requires begun { IsOnePiece (progress self.old).held }
        requires whole { count ≡ length (progress self.old).held }
        requires long { P.MOST_KEPT < count }
        requires played { self.old.passes_over ≡ false }
        ensures steps { Steps P.plays P.MOST_KEPT P.MOST_READ player.old (progress self.old) player.new (progress self.new) result }
        ensures room { vec_len self.new.bytes ≡ vec_len self.old.bytes }
    {
        match self.play_line(player, count, true) {
            None => {
                self.passes_over = true;
                self.pass_over();
                Step::Played
            }
            Some(ended) => Step::Ends(ended),
        }
    }

    // Has so many bytes played as a line; answers how the run ends by it, if it does.
    fn play_line<P: LinePlayer>(
        &mut self,
        player: &mut P,
        count: usize,
        ended: bool,
    ) -> Option<Ended<P::Stop>>
        requires within { count ≤ length (progress self.old).held }
        ensures plays { PlaysPart P.plays player.old (progress self.old) (take count (progress self.old).held) ended player.new (progress self.new) result }
        ensures room { vec_len self.new.bytes ≡ vec_len self.old.bytes }
    {
        let line = part(&self.bytes, self.start, self.start + count);
        match player.play_line(self.alloc, self.number, line, ended, &mut self.out) {
            Ok(None) => None,
            Ok(Some(stop)) => Some(Ended::Stopped(stop)),
            Err(_) => Some(Ended::OutOfMemory),
        }
    }

    // Goes on behind the line feed that stands behind so many bytes.
    fn go_behind(&mut self, count: usize)
        requires within { count < length (progress self.old).held }
        ensures behind { progress self.new ≡ behind_line count (progress self.old) }
        ensures room { vec_len self.new.bytes ≡ vec_len self.old.bytes }
    {
        self.start += count + 1;
        self.searched = self.start;
        self.number += 1;
        self.passes_over = false;
    }

    // Goes on behind all bytes that were read.
    fn pass_over(&mut self)
        ensures behind { progress self.new ≡ record (progress self.old) { held = [] } }
        ensures room { vec_len self.new.bytes ≡ vec_len self.old.bytes }
    {
        self.start = self.end;
        self.searched = self.end;
    }
}

/// What stands between two positions.
pub(crate) fn part(bytes: &Vec<u8>, start: usize, end: usize) -> &[u8]
    requires begun { start ≤ end }
    requires within { end ≤ vec_len bytes.now }
    ensures { result.now ≡ take (end - start) (drop start bytes.now.items) }
{
    &bytes[start..end]
}
