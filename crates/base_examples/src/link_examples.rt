//! Links, acceptors and files at work: what is read, written and found, and which failures count.
ghost use Rattle.std.specs.Prelude.{◌≡◌, ◌∷◌, ◌++◌, [], ℕ, List, Some, None, Ok, Err, Vec, ⊤, codes};
ghost use Rattle.std.specs.declared.alloc.Global.{Global};
ghost use Rattle.sw_base.specs.Faults.{CountsFault};
ghost use Rattle.sw_base.specs.Link.{LinkState, HasFailed, IsClean, Reads, Writes, opened};
ghost use Rattle.sw_base.specs.Acceptors.{AcceptorState, Comes, untouched};
ghost use Rattle.sw_base.specs.Listeners.{ListenerState, Gives};
ghost use Rattle.sw_base.specs.Files.{Finds, file_at};
ghost use Rattle.link_writer.specs.Sends.{Sends};
ghost use Rattle.link_reader.specs.Heads.{IsHeadEnd};
ghost use Rattle.link_reader.specs.Bodies.{IsWhole};

/// Of the links that come, the first is given, and the next one comes then.
pub fn the_first_link_to_come_is_given()
    ensures { (first second link : LinkState) (before after : AcceptorState) → before.coming ≡ Some (first ∷ second ∷ []) → Comes link before after
        → (link ≡ first) × (after.coming ≡ Some (second ∷ [])) }
{}

/// As many acceptors are given as there are workers.
pub fn each_worker_is_given_an_acceptor()
    ensures { (before after : ListenerState) → ¬ (Gives (λ a. a) (untouched [] ∷ []) (codes "h:80") before after 2) }
{}

/// Bytes that were read are left no more.
pub fn bytes_that_were_read_are_left_no_more()
    ensures { (before after : LinkState) → before.left ≡ Some (codes "abc") → Reads {E = ⊤} before after (Ok 2) (codes "ab") → after.left ≡ Some (codes "c") }
{}

/// All bytes that a write tells of were written.
pub fn bytes_that_a_write_tells_of_were_written()
    ensures { (before after : LinkState) → before.written ≡ Some (codes "x") → Writes {E = ⊤} before after (Ok 2) (codes "abc") → after.written ≡ Some (codes "xab") }
{}

/// A text that was sent is written whole, from its first byte to its last.
pub fn a_text_that_was_sent_is_written_whole_and_in_order()
    ensures { (before after : LinkState) (done : ⊤) → before.written ≡ Some (codes "x") → Sends {E = ⊤} before after (codes "head" ++ codes "body") (Ok done)
        → after.written ≡ Some (codes "xheadbody") }
{}

/// A link is clean once all that was written is flushed, and not before.
pub fn a_link_is_clean_once_all_is_flushed()
    ensures flushed { IsClean (opened None (Some (codes "ab"))) }
    ensures unflushed { ¬ (IsClean (record (opened None (Some (codes "ab"))) { flushed = Some (codes "a") })) }
{}

/// A call that is told as done has raised no count, and one that is told as failed has.
pub fn a_failure_is_told_where_the_count_rose()
    ensures told { (failed : ⊤) → CountsFault {T = ⊤} {E = ⊤} (Err failed) 3 4 }
    ensures not_told { (done : ⊤) → ¬ (CountsFault {T = ⊤} {E = ⊤} (Ok done) 3 4) }
    ensures not_counted { (failed : ⊤) → ¬ (CountsFault {T = ⊤} {E = ⊤} (Err failed) 3 3) }
{}

/// A link has failed once a read or a write of it has.
pub fn a_link_has_failed_by_a_read_or_by_a_write()
    ensures read { HasFailed (record (opened None None) { read_faults = 1 }) }
    ensures write { HasFailed (record (opened None None) { write_faults = 1 }) }
    ensures neither { ¬ (HasFailed (opened None None)) }
{}

/// At a path that no file has nothing is found, and not an empty file.
pub fn a_file_that_is_not_there_is_not_found()
    ensures there { file_at [] (codes "a") ≡ None }
    ensures found { (bytes : Vec ℕ Global) → ¬ (Finds None 10 (Ok (Some bytes))) }
{}

/// A head ends behind its empty line, and not a byte earlier.
pub fn a_head_ends_behind_its_empty_line()
    ensures end { IsHeadEnd (codes "a\r\n\r\nb") 5 }
    ensures early { ¬ (IsHeadEnd (codes "a\r\n\r\nb") 4) }
{}

/// A body is whole where it has as many bytes as its head tells.
pub fn a_body_is_whole_at_its_size()
    ensures whole { IsWhole (codes "head body") (codes "head ") [] 4 (codes "body") }
    ensures short { ¬ (IsWhole (codes "head bod") (codes "head ") [] 4 (codes "bod")) }
{}
