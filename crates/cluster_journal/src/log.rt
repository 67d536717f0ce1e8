ghost use Rattle.std.specs.Prelude.{◌≡◌, [], ◌∷◌, ◌++◌};
ghost use mathlib.Core.List.{IsPrefix};

use crate::log_rule::{Add, Compare, Known, OneLog, Share};
use atomic_table::{Seat, Table};
use std::alloc::{AllocError, Global};
use std::marker::{Brand, Model, PhantomData};
use std::mem;

/// Which log a keeper and its fronts are of.
pub trait LogName {
    ghost use Rattle.atomic_table.specs.Seated.{TableId};

    ghost log: { TableId };
}

impl LogName for Brand {
    ghost use Rattle.cluster_journal.specs.Log.{no_log};

    ghost log = { no_log };
}

/// A log without entries, which its caller names by a type: clauses see it as its name.
#[derive(Drop)]
pub struct NewLog<E: Drop> {
    table: Table<E, Known<E>, (), OneLog, Global>,
    seat: Seat<E, Known<E>>,
}

impl<E: Drop> Model for NewLog<E> {
    ghost use Rattle.std.specs.Prelude.{◌≡◌, []};
    ghost use Rattle.atomic_table.specs.Seated.{TableId};
    ghost use Rattle.cluster_journal.specs.Log.{keepers};

    ghost Value = { TableId };

    ghost view = { λ n. n.table.shared.table_id };

    ghost invariant = { λ n. (n.seat.table_id ≡ n.table.shared.table_id) × (n.table.shared.table_id.words ≡ 1) × (n.seat.me ≡ (keepers [] [], [])) };
}

impl<E: Drop> NewLog<E> {
    /// A new log. Fails only when memory runs out, of which it takes one word.
    pub fn new(alloc: Global) -> Result<NewLog<E>, AllocError> {
        let (table, seat) = Table::of_words(alloc, &[0], &())?;
        Ok(NewLog { table, seat })
    }

    /// The keeper of the log.
    pub fn keeper<J: LogName>(self) -> Keeper<E, J>
        requires { self ≡ J.log }
        ensures { result ≡ [] }
    {
        let NewLog { table, seat } = self;
        Keeper {
            table,
            seat,
            log: PhantomData,
        }
    }
}

/// The right to add to a log, and the knowledge of all of it: clauses see it as the entries of the log.
#[derive(Drop)]
pub struct Keeper<E: Drop, J: LogName> {
    table: Table<E, Known<E>, (), OneLog, Global>,
    seat: Seat<E, Known<E>>,
    log: PhantomData<J>,
}

impl<E: Drop, J: LogName> Model for Keeper<E, J> {
    ghost use Rattle.std.specs.Prelude.{◌≡◌, List, []};
    ghost use Rattle.cluster_journal.specs.Log.{keepers};

    ghost Value = { List E };

    ghost view = { λ k. k.seat.me.0.all };

    ghost invariant = { λ k. (k.seat.table_id ≡ k.table.shared.table_id) × (k.table.shared.table_id ≡ J.log) × (k.table.shared.table_id.words ≡ 1) × (k.seat.me ≡ (keepers k.seat.me.0.all [], [])) };
}

/// A beginning of a log that was seen: clauses see it as its entries. It has no bytes.
#[derive(Drop)]
pub struct Front<E: Drop, J: LogName> {
    seat: Seat<E, Known<E>>,
    log: PhantomData<J>,
}

impl<E: Drop, J: LogName> Model for Front<E, J> {
    ghost use Rattle.std.specs.Prelude.{◌≡◌, List, []};

    ghost Value = { List E };

    ghost view = { λ f. f.seat.me.0.all };

    ghost invariant = { λ f. (f.seat.table_id ≡ J.log) × (f.seat.me.1 ≡ []) };
}

impl<E: Drop, J: LogName> Keeper<E, J> {
    /// The entry is the log's last one from now on.
    pub fn add(&mut self, entry: &E)
        ensures { self.new ≡ self.old ++ entry.now ∷ [] }
    {
        let Keeper {
            table,
            seat,
            log: _,
        } = self;
        table
            .shared
            .compare_exchange_with::<Add>(seat, 0, 0, 0, entry);
    }

    /// The log as it is.
    pub fn front(&mut self) -> Front<E, J>
        ensures front { result ≡ self.old }
        ensures unchanged { self.new ≡ self.old }
    {
        let Keeper {
            table,
            seat,
            log: _,
        } = self;
        Front {
            seat: table.shared.split_seat::<Share>(seat),
            log: PhantomData,
        }
    }

    /// A law: a front of the log is a beginning of it.
    pub fn began(&mut self, front: Front<E, J>)
        ensures begins { IsPrefix front self.old }
        ensures unchanged { self.new ≡ self.old }
    {
        let Front { seat: told, log: _ } = front;
        let Keeper {
            table,
            seat,
            log: _,
        } = self;
        table.shared.join_seat::<Share>(seat, told);
        table.shared.load::<Compare>(seat, 0);
    }

    /// The front, a beginning of the log, is the log as it is from now on.
    pub fn renew(&mut self, front: &mut Front<E, J>)
        ensures begins { IsPrefix front.old self.old }
        ensures front { front.new ≡ self.old }
        ensures unchanged { self.new ≡ self.old }
    {
        let old = mem::replace(front, self.front());
        self.began(old);
    }
}
