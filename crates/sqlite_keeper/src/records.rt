ghost use Rattle.std.specs.Prelude.{◌≡◌, Some, None, IfOk, IfSome, OnOk, OnErr, slice_get, option_map};
ghost use Rattle.swarm_keeper.specs.Tables.{Tables, appended, replaced, bytes_of};
ghost use Rattle.sqlite_keeper.specs.Files.{Begins, Knows, blob_before as spec_blob_before};
ghost use Rattle.sqlite_keeper.specs.Kept.{Keeps, Leads, Stays, Looks, IsJudged, IsFound};
ghost use Rattle.sqlite_keeper.specs.declared.standing.Standing.TheVariants.{Open, Shut};
ghost use Rattle.sqlite_keeper.specs.declared.standing.Found.TheVariants.{WithLine};

use crate::changes::{append, take_out};
use crate::known::{Begun, BlobBefore, Known};
use crate::pool_file::PoolFile;
use crate::site::Site;
use crate::standing::{Found, Standing};
use dimensions::{Seq, Text};
use sqlite::{Error, ErrorCode};
use std::alloc::Global;
use sw_base::StartFault;
use swarm_keeper::Digest;

pub(crate) const CLOSED: Error = Error::SqliteFailure(ErrorCode::Closed);

/// The records of a pool in a file.
///
/// A call that fails shuts the file. It is opened anew at once, else as the next call begins, else as it is
/// let go of. It must lie where it lay, and have what was kept, or besides just the line of the call that
/// failed, which is then taken out. Where it has anything else, each call fails from then on.
#[derive(Drop)]
pub(crate) struct Records<F: PoolFile> {
    pub(crate) site: Site,
    pub(crate) file: F,
    pub(crate) known: Known,
    /// The call that failed, where it adds a line.
    pub(crate) begun: Option<Begun>,
    pub(crate) standing: Standing,
}

/// What a file has of a blob.
fn blob_before<F: PoolFile>(
    file: &mut F,
    digest: Option<Digest>,
) -> Result<Option<BlobBefore>, Error>
    ensures before { IfOk result (λ before. IfSome (F.stands file.old) (λ t. before ≡ option_map (spec_blob_before t) digest)) }
    ensures stays { F.stands file.new ≡ F.stands file.old }
{
    match digest {
        Some(digest) => Ok(Some(BlobBefore {
            digest,
            bytes: file.blob(&digest)?,
        })),
        None => Ok(None),
    }
}

fn found<F: PoolFile>(alloc: Global, file: &mut F) -> Result<Known, Error>
    ensures known { IfOk result (λ known. IfSome (F.stands file.old) (Knows known)) }
    ensures stays { F.stands file.new ≡ F.stands file.old }
{
    let place = file.place()?;
    let lines = file.lines()?;
    let last = match file.line(lines.saturating_sub(1))? {
        Some(line) => line,
        None => Text::new(alloc),
    };
    Ok(Known {
        place,
        count: file.count()?,
        base_lines: file.base_lines()?,
        lines,
        last,
    })
}

fn judged(known: &Known, begun: &Option<Begun>, found: &Known) -> Found
    ensures { IsJudged result known.now begun.now found.now }
{
    if found.is(known) {
        return Found::AsKept;
    }
    match begun {
        Some(begun) if found.is(&begun.known) => Found::WithLine,
        _ => Found::Others,
    }
}

impl<F: PoolFile> Records<F> {
    /// The records at a site, which are made where there are none, and become those of the second version
    /// where they are of the first.
    pub fn open(site: Site, mut file: F) -> Result<Records<F>, StartFault>
        ensures { IfOk result (λ r. IfSome (F.stands r.file) (Keeps F.stands r)) }
    {
        if let Err(error) = file.open() {
            return Err(site.start_fault(&error));
        }
        match file.open_tables() {
            Ok(opened) => if !site.are_tables(opened) {
                return Err(StartFault::Failed);
            },
            Err(error) => return Err(site.start_fault(&error)),
        }
        match found(site.alloc, &mut file) {
            Ok(known) => Ok(Records {
                site,
                file,
                known,
                begun: None,
                standing: Standing::Open,
            }),
            Err(error) => Err(site.start_fault(&error)),
        }
    }

    /// What the file has, where it lies where it lay.
    fn find(&mut self) -> Result<Found, Error>
        ensures looks { Looks F.stands self.old self.new }
        ensures found { IfOk result (λ found. IfSome (F.stands self.old.file) (IsFound found self.old.known self.old.begun)) }
    {
        // The file isn't made where it is gone.
        if self.file.place()? != self.known.place {
            return Ok(Found::Others);
        }
        self.file.open()?;
        let known = found(self.site.alloc, &mut self.file)?;
        Ok(judged(&self.known, &self.begun, &known))
    }

    fn opened(&mut self)
        ensures { self.new ≡ record self.old { begun = None; standing = Open } }
    {
        self.begun = None;
        self.standing = Standing::Open;
    }

    /// Takes out the line of the call that failed.
    fn take_out(&mut self) -> Result<(), Error>
        requires shut { self.old.standing ≡ Shut }
        requires found { IfSome (F.stands self.old.file) (IsFound WithLine self.old.known self.old.begun) }
        ensures stays { Stays F.stands self.old self.new }
        ensures open { OnOk result (self.new.standing ≡ Open) }
    {
        let Some(begun) = &self.begun else {
            return Err(CLOSED);
        };
        take_out(&mut self.file, begun)?;
        self.opened();
        Ok(())
    }

    /// Opens the file anew, which has what was kept and nothing else then.
    fn open_anew(&mut self) -> Result<(), Error>
        requires { self.old.standing ≡ Shut }
        ensures stays { Stays F.stands self.old self.new }
        ensures open { OnOk result (self.new.standing ≡ Open) }
    {
        match self.find()? {
            Found::AsKept => {
                self.opened();
                Ok(())
            }
            Found::WithLine => self.take_out(),
            Found::Others => {
                self.standing = Standing::Lost;
                self.site
                    .log_after_fault("are not those that were kept, and stay closed");
                Err(CLOSED)
            }
        }
    }

    /// Opens the file anew if it is shut.
    fn mend(&mut self) -> Result<(), Error>
        ensures stays { Stays F.stands self.old self.new }
        ensures open { OnOk result (self.new.standing ≡ Open) }
    {
        let mended = match self.standing {
            Standing::Open => return Ok(()),
            Standing::Shut => self.open_anew(),
            Standing::Lost => Err(CLOSED),
        };
        match &mended {
            Ok(()) => self.site.log_after_fault("were opened anew"),
            Err(error) => {
                self.file.shut();
                self.site.log_unopened(error);
            }
        }
        mended
    }

    /// What a call found. Where it failed the file is shut, and opened anew if that can be.
    fn settle<T>(&mut self, call: &str, found: Result<T, Error>) -> Result<T, Error>
        ensures same { result ≡ found }
        ensures stays { Stays F.stands self.old self.new }
    {
        if let Err(error) = &found {
            self.site.log_fault(call, error);
            self.file.shut();
            if let Standing::Open = self.standing {
                self.standing = Standing::Shut;
            }
            let _ = self.mend();
        }
        found
    }

    fn begin(
        &mut self,
        line: &str,
        add: Option<Digest>,
        remove: Option<Digest>,
    ) -> Result<Begun, Error>
        ensures looks { Looks F.stands self.old self.new }
        ensures begins { IfOk result (λ begun. IfSome (F.stands self.old.file) (Begins begun self.old.known add remove)) }
    {
        Ok(Begun {
            known: self.known.after(self.site.alloc, line)?,
            added: blob_before(&mut self.file, add)?,
            removed: blob_before(&mut self.file, remove)?,
        })
    }

    fn has_appended(&mut self, begun: Begun)
        ensures { self.new ≡ record self.old { known = begun.known } }
    {
        self.known = begun.known;
    }

    fn may_have_appended(&mut self, begun: Begun)
        ensures { self.new ≡ record self.old { begun = Some begun; standing = Shut } }
    {
        self.begun = Some(begun);
        self.standing = Standing::Shut;
    }

    fn append_open(
        &mut self,
        line: &str,
        add: Option<Digest>,
        bytes: &[u8],
        remove: Option<Digest>,
    ) -> Result<(), Error>
        requires { self.old.standing ≡ Open }
        ensures kept { OnOk result (Leads F.stands self.old self.new (appended line.now add bytes.now remove)) }
        ensures stays { OnErr result (Stays F.stands self.old self.new) }
    {
        let begun = self.begin(line, add, remove)?;
        match append(&mut self.file, line, add, bytes, remove) {
            Ok(()) => {
                self.has_appended(begun);
                Ok(())
            }
            Err(error) => {
                self.may_have_appended(begun);
                Err(error)
            }
        }
    }

    pub fn append(
        &mut self,
        line: &str,
        add: Option<Digest>,
        bytes: &[u8],
        remove: Option<Digest>,
    ) -> Result<(), Error>
        ensures kept { OnOk result (Leads F.stands self.old self.new (appended line.now add bytes.now remove)) }
        ensures stays { OnErr result (Stays F.stands self.old self.new) }
    {
        self.mend()?;
        let done = self.append_open(line, add, bytes, remove);
        self.settle("keep a line in", done)
    }

    /// Where it fails and the base stands in the file, the base can't be taken out, and is not what was kept.
    fn replace_open(&mut self, base: &[Text], count: u64) -> Result<(), Error>
        requires { self.old.standing ≡ Open }
        ensures kept { OnOk result (Leads F.stands self.old self.new (replaced base.now count)) }
        ensures stays { OnErr result (Stays F.stands self.old self.new) }
    {
        let known = Known {
            place: self.known.place,
            count,
            base_lines: base.len() as u64,
            lines: 0,
            last: Text::new(self.site.alloc),
        };
        match self.file.replace(base, count) {
            Ok(()) => {
                self.known = known;
                Ok(())
            }
            Err(error) => {
                // Where both have as much, it can't be told which of them stands.
                self.standing = if known.has_numbers_of(&self.known) {
                    Standing::Lost
                } else {
                    Standing::Shut
                };
                Err(error)
            }
        }
    }

    pub fn replace(&mut self, base: &[Text], count: u64) -> Result<(), Error>
        ensures kept { OnOk result (Leads F.stands self.old self.new (replaced base.now count)) }
        ensures stays { OnErr result (Stays F.stands self.old self.new) }
    {
        self.mend()?;
        let done = self.replace_open(base, count);
        self.settle("keep a base in", done)?;
        let lines = base.len() as u64;
        self.site.log_numbers(
            "begin anew",
            ("base lines", lines),
            ("entries before", count),
        );
        Ok(())
    }

    pub fn count(&mut self) -> Result<u64, Error>
        ensures count { IfOk result (λ count. (t : Tables) → Keeps F.stands self.old t → count ≡ t.count) }
        ensures stays { Stays F.stands self.old self.new }
    {
        self.mend()?;
        let found = self.file.count();
        self.settle("read the count of", found)
    }

    pub fn base_line(&mut self, at: u64) -> Result<Option<Text>, Error>
        ensures line { IfOk result (λ line. (t : Tables) → Keeps F.stands self.old t → line ≡ slice_get t.base at) }
        ensures stays { Stays F.stands self.old self.new }
    {
        self.mend()?;
        let found = self.file.base_line(at);
        let line = self.settle("read a base line of", found)?;
        let end = if at == 0 { "" } else { "have a base" };
        self.site.log_read("base lines", at, line.is_some(), end);
        Ok(line)
    }

    pub fn line(&mut self, at: u64) -> Result<Option<Text>, Error>
        ensures line { IfOk result (λ line. (t : Tables) → Keeps F.stands self.old t → line ≡ slice_get t.lines at) }
        ensures stays { Stays F.stands self.old self.new }
    {
        self.mend()?;
        let found = self.file.line(at);
        let line = self.settle("read a line of", found)?;
        self.site.log_read("lines", at, line.is_some(), "are open");
        Ok(line)
    }

    pub fn blob(&mut self, digest: &Digest) -> Result<Option<Seq<u8>>, Error>
        ensures bytes { IfOk result (λ bytes. (t : Tables) → Keeps F.stands self.old t → bytes ≡ bytes_of t.blobs digest.now) }
        ensures stays { Stays F.stands self.old self.new }
    {
        self.mend()?;
        let found = self.file.blob(digest);
        self.settle("read a blob of", found)
    }

    /// Lets go of the file, which is opened anew before if it is shut.
    pub fn close(&mut self)
        ensures { Stays F.stands self.old self.new }
    {
        if self.mend().is_ok() {
            if let Err(error) = self.file.close() {
                self.site.log_failed("close", &error);
            }
        }
    }
}
