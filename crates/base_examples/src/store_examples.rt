//! A store of contents at work: which names it holds, and which bytes it takes, as facts that the check computes.
ghost use Rattle.std.specs.Prelude.{◌≡◌, ◌∷◌, [], Some, None, false};
ghost use Rattle.sha2.specs.Sha256.{sha256};
ghost use Rattle.blob_rows.specs.Extents.{extent_at};
ghost use Rattle.blob_rows.specs.declared.held.Held.TheVariants.{Placed, Present, NoNames, NoRoom};
ghost use Rattle.blob_rows.specs.declared.filled.Filled.TheVariants.{Done, Differs, Unknown};
ghost use Rattle.blob_rows.specs.BlobRows.{put, put_result};
ghost use Rattle.content_store.specs.Contents.{is_held, number_of, bytes_of, without_content};
ghost use Rattle.content_store.specs.Plain.{hold_result, fill_result, held_after_fill};
ghost use Rattle.base_examples.specs.StoreExamples.{name, store_of, holds, no_blobs, short, short_digest, long, long_digest, awaited};

/// A content takes a unit for each 64 bytes that it begins, and one where it has none.
pub fn contents_take_whole_units()
    ensures one { hold_result (store_of 4 8) (name 1) 64 ≡ Placed (extent_at 1 0) }
    ensures two { hold_result (holds (store_of 4 8) ((1, 64) ∷ [])) (name 2) 65 ≡ Placed (extent_at 2 1) }
    ensures three { hold_result (holds (store_of 4 8) ((1, 64) ∷ [])) (name 3) 192 ≡ Placed (extent_at 3 1) }
    ensures no_room { hold_result (holds (store_of 4 8) ((1, 64) ∷ [])) (name 3) 193 ≡ NoRoom }
    ensures nothing { hold_result (holds (store_of 4 8) ((1, 64) ∷ [])) (name 3) 0 ≡ Placed (extent_at 1 1) }
{}

/// A name that is held keeps its number, and no further one is held than there may be.
pub fn a_name_is_held_once()
    ensures number { number_of (holds (store_of 1 1) ((7, 3) ∷ [])).held (name 7) ≡ Some 7 }
    ensures another { number_of (holds (store_of 1 1) ((7, 3) ∷ [])).held (name 8) ≡ None }
    ensures present { hold_result (holds (store_of 1 1) ((7, 3) ∷ [])) (name 7) 3 ≡ Present }
    ensures no_names { hold_result (holds (store_of 1 1) ((7, 3) ∷ [])) (name 8) 56 ≡ NoNames }
    ensures gone { is_held (without_content (name 7) (holds (store_of 1 1) ((7, 3) ∷ [])).held) (name 7) ≡ false }
{}

/// A blob that is put again is kept until the new deadline, under its number; the next one has the
/// next number, also where the first one is gone.
pub fn a_blob_is_put_again()
    ensures first { (put no_blobs 1000 (name 1) 3).rows ≡ record { no = 1; digest = name 1; size = 3; extent = extent_at 1 0; deadline = 1000 } ∷ [] }
    ensures present { put_result 4 (put no_blobs 1000 (name 1) 3) (name 1) 3 ≡ Present }
    ensures no_room { put_result 4 (put no_blobs 1000 (name 1) 3) (name 2) 56 ≡ NoRoom }
    ensures renewed { (put (put no_blobs 1000 (name 1) 3) 1600 (name 1) 3).rows ≡ record { no = 1; digest = name 1; size = 3; extent = extent_at 1 0; deadline = 1600 } ∷ [] }
    ensures next { (put (record no_blobs { placed = 1 }) 1700 (name 2) 56).rows ≡ record { no = 2; digest = name 2; size = 56; extent = extent_at 1 0; deadline = 1700 } ∷ [] }
{}

/// SHA-256 is that of FIPS 180-4, by its two examples.
#[tactic(auto, using(crate::proofs::StoreExamples::sha256_short, crate::proofs::StoreExamples::sha256_long))]
pub fn digests_are_those_of_the_standard()
    ensures one_block { sha256 short ≡ short_digest }
    ensures two_blocks { sha256 long ≡ long_digest }
{}

/// Bytes are taken under their own digest, where it is held with their size.
#[tactic(auto, using(crate::proofs::StoreExamples::fill_done, crate::proofs::StoreExamples::fill_other, crate::proofs::StoreExamples::fill_unknown))]
pub fn bytes_come_under_their_digest()
    ensures done { fill_result awaited short_digest short ≡ Done }
    ensures other { fill_result awaited short_digest long ≡ Differs long_digest }
    ensures unknown { fill_result awaited long_digest long ≡ Unknown }
    ensures missing { bytes_of awaited short_digest ≡ None }
    ensures there { bytes_of (held_after_fill Done short_digest short awaited) short_digest ≡ Some short }
{}
