//! A worker's turn: a letter to its silo is lent, prepared and committed.
ghost use Rattle.std.specs.Prelude.{◌≡◌, ◌+◌, ◌⊎◌, ◌<◌, IfErr, IfOk, MatchResult, OnOk, Some};
ghost use Rattle.cluster_board.specs.Commits.{Declines};
ghost use Rattle.cluster_board.specs.declared.refusal.CommitRefusal.TheVariants.{StaleWork};
ghost use Rattle.cluster_journal.specs.Journal.{world_of};
ghost use Rattle.silo_workers.specs.Causes.{cause_of};
ghost use Rattle.silo_workers.specs.Endings.{Ends, EndsAnywhere, IsGivenBy};

use crate::{Cause, Ending, Gate, Site, Tally};
use cluster_board::{Board, Charter, Job, Prepared, Uncommitted};
use silo_address::SiloAddress;
use std::alloc::{AllocError, Global};
use std::sync::{Condvar, Wait};

/// Waits for a letter to the tally's silo and delivers it, or tries to: work that isn't current any more is let go. Fails where the
/// worker ends: it was dismissed, or has to give up.
pub(crate) fn turn<L: Charter, G: Gate + Drop, R: Wait>(
    rt: &R,
    alloc: Global,
    site: &Site<L, G>,
    tally: &mut Tally<L>,
) -> Result<(), Ending<L>>
    ensures silo { tally.new.silo ≡ tally.old.silo }
    ensures ended { IfErr result (Ends L.settings tally.new.silo tally.new.seen) }
{
    let silo = tally.silo();
    let Ok(()) = tally.make_room() else {
        return Err(give_up(rt, site, &silo, Cause::OutOfMemory));
    };
    let job = next_job(rt, site, &silo)?;
    site.gate.between(&silo, job.number());
    let Ok(prepared) = prepare(alloc, job) else {
        return Err(give_up(rt, site, &silo, Cause::OutOfMemory));
    };
    match commit(rt, site, tally, prepared) {
        Ok(()) => Ok(()),
        Err(cause) => Err(give_up(rt, site, &silo, cause)),
    }
}

// The silo's worker gives up: the board has it, and all are told.
fn give_up<L: Charter, G: Gate + Drop, R: Wait>(
    rt: &R,
    site: &Site<L, G>,
    silo: &SiloAddress,
    cause: Cause,
) -> Ending<L>
    ensures { result ≡ record { silo = silo.now; cause = Some cause } }
{
    let mut board = site.board.lock(rt);
    give_up_on(&mut board, &site.bell, silo, cause)
}

// The same, for who has the lock.
fn give_up_on<L: Charter>(
    board: &mut Board<L>,
    bell: &Condvar,
    silo: &SiloAddress,
    cause: Cause,
) -> Ending<L>
    ensures { result ≡ record { silo = silo.now; cause = Some cause } }
{
    let dismissal = board.give_up(silo);
    bell.notify_all();
    Ending::new(dismissal, Some(cause))
}

// The next job of the silo, for which this waits. Fails where the silo is dismissed, or memory runs out.
fn next_job<L: Charter, G: Gate + Drop, R: Wait>(
    rt: &R,
    site: &Site<L, G>,
    silo: &SiloAddress,
) -> Result<Job<L>, Ending<L>>
    ensures { MatchResult result (λ job. job.letter.to ≡ silo.now) (EndsAnywhere silo.now) }
{
    let mut board = site.board.lock(rt);
    for _ in rt.forever() {
        if let Some(dismissal) = board.dismissal(silo) {
            return Err(Ending::new(dismissal, None));
        }
        match board.lend(silo) {
            Ok(Some(job)) => return Ok(job),
            Ok(None) => {}
            Err(_) => return Err(give_up_on(&mut board, &site.bell, silo, Cause::OutOfMemory)),
        }
        board = site.bell.wait(rt, board);
    }
    unreachable!()
}

// The job is prepared, or given back where memory runs out.
fn prepare<L: Charter>(alloc: Global, job: Job<L>) -> Result<Prepared<L>, AllocError>
    ensures { IfOk result (λ prepared. prepared ≡ job) }
{
    match job.prepare(alloc) {
        Ok(prepared) => Ok(prepared),
        Err(job) => {
            job.give_back();
            Err(AllocError)
        }
    }
}

// Prepared work of the tally's silo is committed, and all are told that the board has changed; or it is let go, since it isn't
// current any more. Fails where the worker has to give up.
fn commit<L: Charter, G: Gate + Drop, R: Wait>(
    rt: &R,
    site: &Site<L, G>,
    tally: &mut Tally<L>,
    prepared: Prepared<L>,
) -> Result<(), Cause>
    requires room { tally.old.many < tally.old.room }
    requires its { prepared.letter.to ≡ tally.old.silo }
    ensures silo { tally.new.silo ≡ tally.old.silo }
    ensures done { OnOk result ((tally.new.many ≡ tally.old.many + 1) ⊎ Declines (world_of L.settings tally.new.seen) prepared StaleWork) }
    ensures refused { IfErr result (IsGivenBy (world_of L.settings tally.new.seen) prepared) }
{
    let mut board = site.board.lock(rt);
    let committed = tally.commit(&mut board, prepared);
    drop(board);
    match committed {
        Ok(()) => {
            site.bell.notify_all();
            Ok(())
        }
        Err(uncommitted) => match let_go(uncommitted) {
            Some(cause) => Err(cause),
            None => Ok(()),
        },
    }
}

// What is left of work that wasn't committed is let go, while nobody has the lock: the cause by which the worker has to give up, if
// there is one.
fn let_go<L: Charter>(uncommitted: Uncommitted<L>) -> Option<Cause>
    ensures { result ≡ cause_of uncommitted.refusal }
{
    let Uncommitted { refusal, job, node } = uncommitted;
    if let Some(job) = job {
        job.give_back();
    }
    drop(node);
    Cause::of(refusal)
}
