#![tactic(auto)]

//! Transcripts: what is sent over a connection and what comes back, as rows of a readable text.
//!
//! [`read`] takes the transcripts out of a text. [`compare_console`] holds what was printed in a run
//! against a transcript, [`compare_link`] what was written to another link, [`compare_links`] how many
//! links it used, [`compare_status`] its status, [`compare_moments`] how often its clock was asked,
//! [`compare_waits`] how many seconds it waited and [`compare_runner`] whether it took all answers of
//! its runner, and [`compare_records`] what its store keeps of a pool. Where a call failed in the run,
//! [`compare_begun`], [`compare_refused`], [`compare_end`] and [`compare_begun_records`] say what may stand
//! in the place of that. A text has one entry a line. Lines that are blank or begin with `#` are left out.
//!
//! | Line | Meaning |
//! |---|---|
//! | `let NAME TEXT` | from here on `${NAME}` stands for the text, and `${NAME*9}` for it nine times |
//! | `transcript NAME` | begins a transcript: one run of the program over a console and other links, on a new store that keeps nothing |
//! | `from NAME` | the transcript begins with the rows of an earlier one of the text, up to its first `again`, and has its files |
//! | `again` | ends the run, and begins the next one of the same words and files, over the store that it left |
//! | `words WORD ..` | the words of the command line; `session` where the line is absent |
//! | `caller NAME` | who sends the requests from here on, also in the transcripts that follow |
//! | `field TEXT` | one more field in the head of the next request |
//! | `> MOMENT PATH BODY` | a request: the clock's second at which its pool is asked, or `-` where no pool is asked, its path and its body |
//! | `>put MOMENT PATH BODY`, `>get MOMENT PATH` | the same by PUT, and by GET |
//! | `< STATUS \| FRONT \| BODY` | its reply: the status, the `X-Swarming-Front` or `-` for none, and the body |
//! | `<blob STATUS \| FRONT \| BYTES` | the same, where the body are the bytes of a blob, as `application/octet-stream` |
//! | `>> TEXT` | bytes that are sent as they stand |
//! | `<< TEXT` | bytes that are answered as they stand |
//! | `connection` | begins the next link that comes to the listener: the rows that follow go over it |
//! | `acceptor` | the links that follow come to the next acceptor that the listener gives, and no more to the one before it. Each worker is given an acceptor, and behind the workers each board |
//! | `dial` | begins the next link that the program dials: what is sent over it is what the program reads, and what is answered what the program writes |
//! | `console` | the rows that follow go over the console, as those before the first `connection` or `dial` |
//! | `>reply STATUS \| FRONT \| BODY` | a reply that a dialed link gives, in the form of `<` |
//! | `>blob STATUS \| FRONT \| BYTES` | the same, in the form of `<blob` |
//! | `<request PATH BODY` | a request that the program writes to a dialed link, with the fields `Host: lab`, `X-Swarming-Caller` and `Content-Length` in this order |
//! | `<put PATH BODY`, `<get PATH` | the same by PUT, and by GET |
//! | `runner ANSWER` | what the runner answers next to a call of the program: `done`, `output TEXT`, `quiet`, `ended CODE`, `file TEXT`, `no_file`, `cleaned SIZE ..` or `fails`, each as the [`RunnerAnswer`](runners::RunnerAnswer) of this name. Past the last answer each call fails |
//! | `mentions TEXT` | the text stands somewhere in what is printed, which is then not compared with the replies |
//! | `cuts STATUS` | the transcript is also run with what its last dialed link gives cut at each place: nothing is printed, and the program ends with this status |
//! | `listen_fails CALL ..`, `accept_fails CALL ..`, `dial_fails CALL ..` | the calls that listen, accept and dial and that fail, each kind counted from 0 |
//! | `moment SECONDS ..` | more moments that the clock answers, for requests that are sent by `>>`, and for a bot, whose clock is asked at its begin and after each of its actions |
//! | `waits SECONDS` | how many seconds the program waits in all, over the clock of these moments; not compared where the line is absent |
//! | `step SECONDS` | the transcript is also run over a clock that begins at its first moment and goes on by this step at each call |
//! | `pieces FIRST LAST` | the transcript is run once for each size of the pieces in which its bytes come; `pieces 1000 1000` where the line is absent |
//! | `fails CALL ..` | the calls on the link that the rows go over that fail: reads, writes and flushes, counted together from 0 |
//! | `file PATH` | the program finds a file at this path, with the lines that follow; it stands before the first row |
//! | `\| TEXT` | the next line of the file, which ends in LF |
//! | `file_fails CALL ..` | the loads of files that fail, counted from 0 |
//! | `attach_fails CALL ..` | the attaches of keepers that fail, counted from 0 over all runs of the transcript |
//! | `keeper_fails CALL ..` | the calls that fail of one keeper, counted from 0: the first such line is of the keeper that is attached first, and so on |
//! | `puts COUNT FOLDER POOL` | before the run the store is given other records of this pool in the folder: COUNT entries came before their base, and they have the lines that follow. The contents of its blobs stay |
//! | `keeps COUNT FOLDER POOL` | behind the run the store keeps these records of the pool, with the lines that follow and no others |
//! | `base TEXT`, `line TEXT` | the next line of the base, and of the log since, of the records that were begun last |
//! | `each KIND` | the run is also done once for each call of a kind, which fails in it ("Each call", below) |
//! | `ends STATUS` | the status with which the run ends; 0 where the line is absent |
//!
//! Each TEXT and BODY may be empty, and white space at its end counts. In it, and in a PATH, `${NAME}` and
//! `${NAME*9}` are put in, `${0x0a}` stands for one byte, and `${0x61*65}` for 65 of them. A name is
//! letters, digits and `_`. It is given once in a text, and used below the line that gives it.
//!
//! The lines of a file follow its `file` at once: any other key ends it. A file without lines is
//! empty, and no two files of a transcript have one path.
//!
//! For each `puts` and each `keeps` a keeper is attached and given back: they count among the attaches and
//! the keepers that fail.
//!
//! # Each call
//!
//! By `each` a run is done again from a new store on, behind the runs before it as they stand, first with the
//! call of number 0 failing, then with that of number 1, and so on until it meets no call that fails. At least
//! one call has to fail. A run may have several such lines. Which calls, and what has to come of a run in which
//! one failed:
//!
//! | Line | The calls | What comes |
//! |---|---|---|
//! | `each link` | reads, writes and flushes on the console | status 4; what was written are the first bytes of the replies, and what of it was flushed are whole replies. Of each pool that the run `keeps` the first lines are kept: as many as replies were begun, or one more. So each of its requests adds an entry |
//! | `each connection AT` | those on the link of this number that comes | what was written to it are the first bytes of its replies, and what of it was flushed are whole replies; all else is as it stands over a clock that stays at the first moment. So its requests add no entries |
//! | `each keeper KEEPER APPENDS` | those of the keeper of this number, counted as for `keeper_fails`, which is the run's own. So many of them append an entry, one for each of its first requests; the others add none, and the run behind it, where there is one, repeats them | of an append: the replies before that to its request are as they stand, that one is `keeper_fault`, and the run behind it, over what is kept, answers the last bytes that this run answered, so that both tell one state. Of any other call: status 4, and nothing is printed; then the run before it, once more, the run itself and those behind it are as they stand, so that all that they tell is unchanged |
//! | `each dial` | the dials, as many as the run has links that are dialed | all is as it stands, and five seconds more are waited than by `waits`, which the run has. The clock begins at the first moment and goes on by what is waited alone |
//! | `each dialed AT` | reads, writes and flushes on the link of this number that is dialed | what was written to it are the first bytes of its request; then all is as for `each dial`, with one link more, which has the same request and reply |
//! | `each cut_line` | none; but of the first records that the run `puts` each line of the base, and then of the log, is cut by its last byte | the line is told, `store 0 base AT` or `store 0 AT`, with status 3 |
//!
//! A request is sent as
//!
//! ```text
//! POST PATH HTTP/1.1
//! X-Swarming-Caller: NAME
//! Content-Length: SIZE
//!
//! BODY
//! ```
//!
//! with its further fields behind these two, and a reply is
//!
//! ```text
//! HTTP/1.1 STATUS
//! Content-Length: SIZE
//! Content-Type: application/json
//! X-Swarming-Front: FRONT
//!
//! BODY
//! ```
//!
//! without the last field where its front is `-`. Each line of a head ends in CR LF.

mod beginnings;
mod comparison;
mod conversation;
mod draft;
mod each;
mod error;
mod exchange;
mod names;
mod parts;
mod pool_records;
mod reader;
mod runner_answers;
mod transcript;

pub use beginnings::{compare_begun, compare_begun_records, compare_end, compare_refused};
pub use comparison::{
    compare_console, compare_link, compare_links, compare_moments, compare_nothing,
    compare_records, compare_runner, compare_status, compare_waits,
};
pub use conversation::Conversation;
pub use each::Each;
pub use error::{TextFault, TranscriptError};
pub use pool_records::PoolRecords;
pub use reader::read;
pub use transcript::{File, Pieces, Reply, Transcript};
