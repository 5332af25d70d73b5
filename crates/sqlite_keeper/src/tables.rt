use crate::changes::{BlobChange, Change, LineChange};
use crate::opened_tables::OpenedTables;
use dimensions::Text;
use sqlite::types::{FromSql, ValueRef};
use sqlite::{Alter, Connection, Error, ErrorCode, Transaction, params};

// The tables of the first version, which has no base.
const MAKE_TABLES: &str =
    "CREATE TABLE lines(no INTEGER PRIMARY KEY, text TEXT NOT NULL);CREATE TABLE blobs(digest BLOB PRIMARY KEY, bytes BLOB NOT NULL);CREATE TABLE meta(name TEXT PRIMARY KEY, value INTEGER NOT NULL);INSERT INTO meta(name, value) VALUES ('version', 1)";

// What makes them those of the second version, whose base is empty.
const ADD_BASE: &str =
    "CREATE TABLE base(no INTEGER PRIMARY KEY, text TEXT NOT NULL);UPDATE meta SET value = 2 WHERE name = 'version';INSERT INTO meta(name, value) VALUES ('count', 0)";

const ANY_TABLES: &str = "SELECT count(*) FROM sqlite_schema WHERE type = 'table'";

// Each of these finds 0 in a file with the tables that both versions have, or one. The lines are numbered from
// 1 without a gap, and each value is of its type. No name stands twice in `meta`.
const BOTH_VERSIONS: [&str; 6] = [
    "SELECT count(*) - 3 FROM sqlite_schema WHERE type = 'table' AND name IN ('lines', 'blobs', 'meta')",
    "SELECT count(*) FROM meta WHERE typeof(name) <> 'text' OR typeof(value) <> 'integer'",
    "SELECT coalesce(min(no), 1) - 1 FROM lines",
    "SELECT count(*) - coalesce(max(no), 0) FROM lines",
    "SELECT count(*) FROM lines WHERE typeof(text) <> 'text'",
    "SELECT count(*) FROM blobs WHERE typeof(digest) <> 'blob' OR typeof(bytes) <> 'blob'",
];

const FIRST_VERSION: [&str; 3] = [
    "SELECT count(*) FROM sqlite_schema WHERE type = 'table' AND name = 'base'",
    "SELECT count(*) - 1 FROM meta WHERE name = 'version' AND value = 1",
    "SELECT count(*) FROM meta WHERE name = 'count'",
];

const SECOND_VERSION: [&str; 6] = [
    "SELECT count(*) - 1 FROM sqlite_schema WHERE type = 'table' AND name = 'base'",
    "SELECT count(*) - 1 FROM meta WHERE name = 'version' AND value = 2",
    "SELECT count(*) - 1 FROM meta WHERE name = 'count' AND value >= 0",
    "SELECT coalesce(min(no), 1) - 1 FROM base",
    "SELECT count(*) - coalesce(max(no), 0) FROM base",
    "SELECT count(*) FROM base WHERE typeof(text) <> 'text'",
];

const PUT_BLOB: &str = "INSERT OR REPLACE INTO blobs(digest, bytes) VALUES (?1, ?2)";

const DROP_BLOB: &str = "DELETE FROM blobs WHERE digest = ?1";

const ADD_LINE: &str = "INSERT INTO lines(text) VALUES (?1)";

const DROP_LINE: &str = "DELETE FROM lines WHERE no = ?1";

const ADD_BASE_LINE: &str = "INSERT INTO base(no, text) VALUES (?1, ?2)";

const SET_COUNT: &str = "UPDATE meta SET value = ?1 WHERE name = 'count'";

// One statement holds all rows in memory that it deletes: so many at most.
const DELETED_AT_ONCE: i64 = 10_000;

// The calls of `sqlite`, each without its clauses, over any store: a proof that carries what a call
// says of a file takes ten times as long.

fn run<S: Alter>(
    transaction: &mut Transaction<'_, S>,
    query: &str,
    values: &[ValueRef<'_>],
) -> Result<usize, Error> {
    transaction.execute(query, values)
}

fn run_all<S: Alter>(transaction: &mut Transaction<'_, S>, queries: &str) -> Result<(), Error> {
    transaction.execute_batch(queries)
}

fn commit<S: Alter>(transaction: Transaction<'_, S>) -> Result<(), Error> {
    transaction.commit()
}

/// What a query finds first, if anything.
pub(crate) fn found<S: Alter, T: FromSql>(
    file: &mut Connection<S>,
    query: &str,
    values: &[ValueRef<'_>],
) -> Result<Option<T>, Error> {
    match file.query_row(query, values) {
        Ok(row) => Ok(Some(row.get(0)?)),
        Err(Error::QueryReturnedNoRows) => Ok(None),
        Err(error) => Err(error),
    }
}

fn signed<S: Alter>(file: &mut Connection<S>, query: &str) -> Result<i64, Error> {
    found(file, query, &[])?.ok_or(Error::QueryReturnedNoRows)
}

pub(crate) fn number<S: Alter>(file: &mut Connection<S>, query: &str) -> Result<u64, Error> {
    u64::try_from(signed(file, query)?).or(Err(Error::SqliteFailure(ErrorCode::DatabaseCorrupt)))
}

/// The text that a query finds at a place, from 0: its number is one more.
pub(crate) fn text_at<S: Alter>(
    file: &mut Connection<S>,
    query: &str,
    at: u64,
) -> Result<Option<Text>, Error> {
    match i64::try_from(at.saturating_add(1)) {
        Ok(number) => Ok(found(file, query, params![number])?.map(Text::from_string)),
        Err(_) => Ok(None),
    }
}

/// Whether each query finds 0.
fn find_nothing<S: Alter>(file: &mut Connection<S>, queries: &[&str]) -> Result<bool, Error> {
    for query in queries {
        if signed(file, query)? != 0 {
            return Ok(false);
        }
    }
    Ok(true)
}

fn begin<S: Alter>(file: &mut Connection<S>) -> Result<Transaction<'_, S>, Error> {
    if file.is_autocommit() {
        Ok(file.transaction())
    } else {
        Err(Error::SqliteFailure(ErrorCode::TransactionState))
    }
}

/// Makes the tables of the second version, over those of the first or over those that a batch makes, in one
/// transaction.
fn make_tables<S: Alter>(file: &mut Connection<S>, before: &str) -> Result<(), Error> {
    let mut transaction = begin(file)?;
    run_all(&mut transaction, before)?;
    run_all(&mut transaction, ADD_BASE)?;
    commit(transaction)
}

pub(crate) fn open_tables<S: Alter>(file: &mut Connection<S>) -> Result<OpenedTables, Error> {
    if find_nothing(file, &[ANY_TABLES])? {
        make_tables(file, MAKE_TABLES)?;
        Ok(OpenedTables::Second)
    } else if !find_nothing(file, &BOTH_VERSIONS)? {
        Ok(OpenedTables::Others)
    } else if find_nothing(file, &FIRST_VERSION)? {
        make_tables(file, "")?;
        Ok(OpenedTables::First)
    } else if find_nothing(file, &SECOND_VERSION)? {
        Ok(OpenedTables::Second)
    } else {
        Ok(OpenedTables::Others)
    }
}

fn put_blob<S: Alter>(
    transaction: &mut Transaction<'_, S>,
    change: &Option<BlobChange<'_>>,
) -> Result<usize, Error> {
    let Some(change) = change else {
        return Ok(0);
    };
    let digest = change.digest.as_slice();
    match change.bytes {
        Some(bytes) => run(transaction, PUT_BLOB, params![digest, bytes]),
        None => run(transaction, DROP_BLOB, params![digest]),
    }
}

fn put_line<S: Alter>(
    transaction: &mut Transaction<'_, S>,
    change: &LineChange<'_>,
) -> Result<usize, Error> {
    match change {
        LineChange::Add(line) => run(transaction, ADD_LINE, params![*line]),
        LineChange::DropLast(number) => {
            run(transaction, DROP_LINE, params![number.cast_signed()])
        }
    }
}

pub(crate) fn change<S: Alter>(file: &mut Connection<S>, change: &Change<'_>) -> Result<(), Error> {
    let mut transaction = begin(file)?;
    put_blob(&mut transaction, &change.first)?;
    put_blob(&mut transaction, &change.second)?;
    put_line(&mut transaction, &change.line)?;
    commit(transaction)
}

/// Deletes all rows by a query that deletes those up to a number, some of them at a time.
fn delete_rows<S: Alter>(transaction: &mut Transaction<'_, S>, query: &str) -> Result<(), Error> {
    let mut last: i64 = 0;
    for _ in 0..u64::MAX {
        last = last.saturating_add(DELETED_AT_ONCE);
        if run(transaction, query, params![last])? == 0 {
            break;
        }
    }
    Ok(())
}

fn add_base<S: Alter>(transaction: &mut Transaction<'_, S>, base: &[Text]) -> Result<(), Error> {
    let mut last: i64 = 0;
    for line in base {
        last = last.saturating_add(1);
        run(transaction, ADD_BASE_LINE, params![last, line.as_str()])?;
    }
    Ok(())
}

pub(crate) fn replace<S: Alter>(
    file: &mut Connection<S>,
    base: &[Text],
    count: u64,
) -> Result<(), Error> {
    let Ok(count) = i64::try_from(count) else {
        return Err(Error::SqliteFailure(ErrorCode::TooBig));
    };
    let mut transaction = begin(file)?;
    delete_rows(&mut transaction, "DELETE FROM lines WHERE no <= ?1")?;
    delete_rows(&mut transaction, "DELETE FROM base WHERE no <= ?1")?;
    add_base(&mut transaction, base)?;
    run(&mut transaction, SET_COUNT, params![count])?;
    commit(transaction)
}
