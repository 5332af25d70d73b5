//! Contents by their digests and the rows of blobs at work, as facts that the check computes.
ghost use Rattle.std.specs.Prelude.{◌≡◌, ℕ, List, ◌∷◌, [], Some, None, true, false, codes, map, length};
ghost use Rattle.sha2.specs.Sha256.{sha256};
ghost use Rattle.blob_rows.specs.Places.{is_free};
ghost use Rattle.blob_rows.specs.Extents.{extent_at};
ghost use Rattle.blob_rows.specs.declared.held.Held.TheVariants.{Placed, Present};
ghost use Rattle.blob_rows.specs.declared.filled.Filled.TheVariants.{Done, Differs, Unknown};
ghost use Rattle.blob_rows.specs.Digests.{same_digest};
ghost use Rattle.blob_rows.specs.BlobRows.{blob_of, blob_numbered, extent_of_row, renewed, new_blob, put};
ghost use Rattle.content_store.specs.Contents.{unfilled_content, with_content, without_content};
ghost use Rattle.content_store.specs.Plain.{hold_result, fill_result};
ghost use Rattle.content_store.specs.StoredRows.{held_without};
ghost use Rattle.base_examples.specs.ContentExamples.{content, row, store_of, rows_of};

/// A content that is let go frees its place, which the next one takes.
pub fn a_removed_content_frees_its_place()
    ensures held { hold_result (store_of (content (codes "a") 1 0 ∷ content (codes "b") 2 1 ∷ [])) (codes "c") 64 ≡ Placed (extent_at 1 2) }
    ensures free { hold_result (store_of (without_content (codes "b") (content (codes "a") 1 0 ∷ content (codes "b") 2 1 ∷ []))) (codes "c") 64 ≡ Placed (extent_at 1 1) }
    ensures present { hold_result (store_of (content (codes "a") 1 0 ∷ [])) (codes "a") 65 ≡ Present }
{}

/// The removal of a row lets go of its content, and of no other.
pub fn a_removed_row_takes_its_content_with_it()
    ensures { held_without (Some (row (codes "b") 2 1)) (content (codes "a") 1 0 ∷ content (codes "b") 2 1 ∷ []) ≡ content (codes "a") 1 0 ∷ [] }
{}

/// A blob that is put again keeps its row and its place until the new deadline; any other gets the
/// next number and the least free place.
pub fn a_blob_has_one_row()
    ensures again { put (rows_of (row (codes "a") 1 0 ∷ [])) 200 (codes "a") 64 ≡ rows_of (renewed 200 (row (codes "a") 1 0) ∷ []) }
    ensures other { (put (rows_of (row (codes "a") 1 0 ∷ [])) 100 (codes "b") 64).rows ≡ row (codes "a") 1 0 ∷ row (codes "b") 2 1 ∷ [] }
{}

/// A blob that comes with its place lies there, under the next number, also where lesser places are
/// free. Those stay free: the next blob that comes without a place takes the least of them.
pub fn a_blob_lies_at_the_place_with_which_it_comes()
    ensures row { new_blob (rows_of (row (codes "a") 1 0 ∷ [])) 100 (codes "b") 64 3 ≡ row (codes "b") 2 3 }
    ensures held { with_content (unfilled_content (codes "b") 64 2 (extent_at 1 3)) (content (codes "a") 1 0 ∷ []) ≡ content (codes "a") 1 0 ∷ content (codes "b") 2 3 ∷ [] }
    ensures free { is_free (map extent_of_row (row (codes "a") 1 0 ∷ [])) 1 3 ≡ true }
    ensures taken { is_free (map extent_of_row (row (codes "a") 1 0 ∷ row (codes "b") 2 3 ∷ [])) 2 2 ≡ false }
    ensures next { (put (rows_of (row (codes "a") 1 0 ∷ row (codes "b") 2 3 ∷ [])) 100 (codes "c") 64).rows ≡ row (codes "a") 1 0 ∷ row (codes "b") 2 3 ∷ row (codes "c") 3 1 ∷ [] }
{}

/// The number of a blob is the one behind that of the last one that was ever placed.
pub fn a_number_may_be_left_out()
    ensures { new_blob (record (rows_of (row (codes "a") 1 0 ∷ [])) { placed = 4 }) 100 (codes "b") 64 3 ≡ row (codes "b") 5 3 }
{}

/// A row is found by its digest, whatever its number, and by its number.
pub fn a_row_is_found_by_its_digest_and_by_its_number()
    ensures digest { blob_of (row (codes "b") 1 0 ∷ row (codes "a") 2 1 ∷ []) (codes "a") ≡ Some (row (codes "a") 2 1) }
    ensures no_digest { blob_of (row (codes "b") 1 0 ∷ []) (codes "a") ≡ None }
    ensures number { blob_numbered (row (codes "b") 1 0 ∷ row (codes "a") 2 1 ∷ []) 2 ≡ Some (row (codes "a") 2 1) }
{}

/// Bytes of another digest are told with their own digest; bytes of another size than that of the
/// name are unknown.
pub fn only_the_bytes_of_a_name_fill_it()
    ensures other_digest { (digest bytes : List ℕ) → same_digest (sha256 bytes) digest ≡ false → fill_result (content digest 1 0 ∷ []) digest bytes ≡ Differs (sha256 bytes) }
    ensures other_size { (digest bytes : List ℕ) → same_digest digest digest ≡ true → same_digest (sha256 bytes) digest ≡ true → length bytes ≡ 63 → fill_result (content digest 1 0 ∷ []) digest bytes ≡ Unknown }
    ensures same { (digest bytes : List ℕ) → same_digest digest digest ≡ true → same_digest (sha256 bytes) digest ≡ true → length bytes ≡ 64 → fill_result (content digest 1 0 ∷ []) digest bytes ≡ Done }
{}
