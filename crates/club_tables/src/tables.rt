//! Queries the tables over a connection, prepares statements, and runs statements in one
//! transaction.

ghost use Rattle.std.specs.Prelude.{◌≡◌, false, map, IfOk, IfErr, OnOk};
ghost use Rattle.club_tables.specs.Transaction.{Commits, FailsToAsk, FailsToPrepare, Asked, IsKept};
ghost use Rattle.club_tables.specs.Transaction.{IsUnderstood, bound_statement};
ghost use Rattle.sqlite.specs.{Held.state, State.{HasCleanDisk, Survives}, Values.bound};

use crate::transaction::{Statement, fault_of};
use club_core::StoreFault;
use sqlite::types::ValueRef;
use sqlite::{Alter, Connection, Row};
use std::marker::Model;

/// The tables of a club, and the connection to their database. Between calls, the connection isn't
/// in a transaction. Contracts represent a `Tables` value by its connection.
#[derive(Drop)]
pub struct Tables<S: Alter> {
    connection: Connection<S>,
}

impl<S: Alter> Model for Tables<S> {
    ghost use Rattle.std.specs.Prelude.{◌≡◌, false};
    ghost use Rattle.sqlite.specs.Held.{Held, held_code};

    ghost Value = { Held S };

    ghost coded = { held_code S.code };

    ghost view = { λ tables. tables.connection };

    ghost invariant = { λ tables. tables.connection.in_transaction ≡ false };
}

impl<S: Alter> Tables<S> {
    /// Returns the tables over this connection, which must not be in a transaction.
    pub fn over(connection: Connection<S>) -> Tables<S>
        requires { connection.in_transaction ≡ false }
        ensures { result ≡ connection }
    {
        Tables { connection }
    }

    /// Returns the connection, which is unchanged and not in a transaction.
    pub fn into_connection(self) -> Connection<S>
        ensures same { result ≡ self }
        ensures idle { result.in_transaction ≡ false }
    {
        self.connection
    }

    /// Runs a query and returns its rows. Changes nothing.
    ///
    /// # Errors
    ///
    /// Fails if the database refuses the query. `fault_of` maps the database's error to the fault.
    pub fn ask(&mut self, sql: &str, params: &[ValueRef<'_>]) -> Result<Vec<Row>, StoreFault>
        ensures asked { IfOk result (λ rows. HasCleanDisk (state S.Store self.new) →
            Asked S.Store sql.now (bound params.now) self.old rows.items) }
        ensures fault { HasCleanDisk (state S.Store self.new) → IfErr result
            (FailsToAsk S.Store (sql.now, bound params.now) self.old self.new) }
        ensures kept { IsKept (state S.Store self.old) (state S.Store self.new) }
        ensures survives { Survives (state S.Store self.old) (state S.Store self.new) (λ _. ⊥) }
    {
        let mut tx = self.connection.transaction();
        let rows = match tx.query_all(sql, params) {
            Ok(rows) => rows,
            Err(error) => return Err(fault_of(error)),
        };
        tx.rollback();
        Ok(rows)
    }

    /// Prepares an SQL text as a statement over the current schema. Changes nothing.
    ///
    /// # Errors
    ///
    /// Fails if the text isn't a statement or the database refuses it. `fault_of` maps the
    /// database's error to the fault.
    pub fn prepare(&mut self, sql: &str) -> Result<(), StoreFault>
        ensures understood { HasCleanDisk (state S.Store self.new) → OnOk result
            (IsUnderstood (state S.Store self.old).now.schema sql.now) }
        ensures fault { HasCleanDisk (state S.Store self.new) → IfErr result
            (FailsToPrepare S.Store sql.now self.old self.new) }
        ensures kept { IsKept (state S.Store self.old) (state S.Store self.new) }
        ensures survives { Survives (state S.Store self.old) (state S.Store self.new) (λ _. ⊥) }
    {
        let mut tx = self.connection.transaction();
        match tx.prepare(sql) {
            Ok(_) => {}
            Err(error) => return Err(fault_of(error)),
        }
        tx.rollback();
        Ok(())
    }

    /// Runs statements in order, in one transaction, and commits them.
    ///
    /// # Errors
    ///
    /// Fails if the database refuses a statement or the commit. `fault_of` maps the database's
    /// error to the fault. A failed call doesn't change the committed state. If a crash follows a
    /// failed call, the database may nevertheless contain the effects of all statements.
    pub fn run(&mut self, statements: &[Statement<'_>]) -> Result<(), StoreFault>
        ensures commits { Commits S.Store 0 (map bound_statement statements.now)
            self.old self.new result }
    {
        self.run_on_rows(statements, 0)
    }

    /// Runs statements in order, in one transaction, and commits them. Each statement must insert
    /// or update a row.
    ///
    /// # Errors
    ///
    /// Fails with `Storage` if a statement inserts or updates no row. Also fails in the same cases
    /// as `run`. A failed call has the same effects as a failed `run`.
    pub fn write(&mut self, statements: &[Statement<'_>]) -> Result<(), StoreFault>
        ensures commits { Commits S.Store 1 (map bound_statement statements.now)
            self.old self.new result }
    {
        self.run_on_rows(statements, 1)
    }

    /// Runs statements in one transaction. Each statement must insert or update at least `fewest`
    /// rows.
    fn run_on_rows(&mut self, statements: &[Statement<'_>], fewest: usize) -> Result<(), StoreFault>
        ensures commits { Commits S.Store fewest (map bound_statement statements.now)
            self.old self.new result }
    {
        let mut tx = self.connection.transaction();
        for statement in statements {
            let count = match tx.execute(statement.text, statement.params) {
                Ok(count) => count,
                Err(error) => return Err(fault_of(error)),
            };
            if count < fewest {
                return Err(StoreFault::Storage);
            }
        }
        match tx.commit() {
            Ok(()) => {}
            Err(error) => return Err(fault_of(error)),
        }
        Ok(())
    }
}
