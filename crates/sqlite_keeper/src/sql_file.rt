ghost use Rattle.std.specs.Prelude.{None};

use crate::changes::Change;
use crate::known::Place;
use crate::opened_tables::OpenedTables;
use crate::pool_file::PoolFile;
use crate::records::CLOSED;
use crate::tables;
use dimensions::{Seq, Text};
use sqlite::{Connection, Error, ErrorCode, File, FileStore, params};
use std::alloc::{AllocError, Global};
use std::fs;
use std::io::ErrorKind;
use std::os::unix::fs::MetadataExt;
use swarm_keeper::Digest;

/// A file of SQLite, which tells nothing.
#[derive(Drop)]
pub(crate) struct SqlFile {
    rt: HostRuntime,
    path: String,
    connection: Option<Connection<FileStore<File>>>,
}

impl SqlFile {
    pub fn new(rt: HostRuntime, alloc: Global, path: &str) -> Result<SqlFile, AllocError> {
        Ok(SqlFile {
            rt,
            path: String::from_str(alloc, path)?,
            connection: None,
        })
    }

    fn opened(&mut self) -> Result<&mut Connection<FileStore<File>>, Error> {
        self.connection.as_mut().ok_or(CLOSED)
    }
}

impl PoolFile for SqlFile {
    ghost stands = { λ _. None };

    fn open(&mut self) -> Result<(), Error> {
        self.connection = Some(Connection::open(&self.rt, self.path.as_str())?);
        Ok(())
    }

    fn shut(&mut self) {
        self.connection = None;
    }

    fn close(&mut self) -> Result<(), Error> {
        match self.connection.take() {
            Some(connection) => connection.close(),
            None => Ok(()),
        }
    }

    fn place(&self) -> Result<Place, Error> {
        match fs::metadata(&self.rt, self.path.as_str()) {
            Ok(found) => Ok(Place {
                device: found.dev(),
                inode: found.ino(),
            }),
            Err(error) if error.kind() == ErrorKind::OutOfMemory => Err(AllocError.into()),
            Err(_) => Err(Error::SqliteFailure(ErrorCode::CannotOpen)),
        }
    }

    fn open_tables(&mut self) -> Result<OpenedTables, Error> {
        tables::open_tables(self.opened()?)
    }

    fn change(&mut self, change: &Change<'_>) -> Result<(), Error> {
        tables::change(self.opened()?, change)
    }

    fn replace(&mut self, base: &[Text], count: u64) -> Result<(), Error> {
        tables::replace(self.opened()?, base, count)
    }

    fn count(&mut self) -> Result<u64, Error> {
        let query = "SELECT value FROM meta WHERE name = 'count'";
        tables::number(self.opened()?, query)
    }

    fn base_lines(&mut self) -> Result<u64, Error> {
        tables::number(self.opened()?, "SELECT coalesce(max(no), 0) FROM base")
    }

    fn lines(&mut self) -> Result<u64, Error> {
        tables::number(self.opened()?, "SELECT coalesce(max(no), 0) FROM lines")
    }

    fn base_line(&mut self, at: u64) -> Result<Option<Text>, Error> {
        tables::text_at(self.opened()?, "SELECT text FROM base WHERE no = ?1", at)
    }

    fn line(&mut self, at: u64) -> Result<Option<Text>, Error> {
        tables::text_at(self.opened()?, "SELECT text FROM lines WHERE no = ?1", at)
    }

    fn blob(&mut self, digest: &Digest) -> Result<Option<Seq<u8>>, Error> {
        let query = "SELECT bytes FROM blobs WHERE digest = ?1";
        let found = tables::found(self.opened()?, query, params![digest.as_slice()])?;
        Ok(found.map(Seq::from_vec))
    }
}
