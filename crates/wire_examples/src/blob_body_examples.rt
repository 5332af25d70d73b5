//! What the bodies of the calls on blobs and on the output of runs say, as facts that the check
//! computes.
ghost use Rattle.std.specs.Prelude.{◌≡◌, replicate, pos, Ok, Err, codes};
ghost use Rattle.serde_json.specs.Data.{string, array, object, member, no_members};
ghost use Rattle.serde_json.specs.View.{items_of};
ghost use Rattle.json_values.specs.Values.{whole};
ghost use Rattle.task_props.specs.declared.prop_fault.PropFault.TheVariants.{Broken};
ghost use Rattle.task_props.specs.declared.prop_rule.PropRule.TheVariants.{Count};
ghost use Rattle.task_bodies.specs.BlobLists.{raw_blob_in, blobs_in};
ghost use Rattle.task_bodies.specs.Stdouts.{length_of, stdout_in};

/// The digest and the size of a blob are read of their own fields.
#[tactic(auto, unfolding(task_bodies::specs::BlobLists::raw_blob_in, crate::specs::BodiesRead::fields_are_read))]
pub fn a_blob_is_asked_for_by_its_digest_and_its_size()
    ensures { raw_blob_in (object (member (codes "digest") (string (codes "5891")) (member (codes "size") (whole 6) no_members))) ≡ Ok (record { digest = codes "5891"; size = pos 6 }) }
{}

/// Of 513 blobs at once none is told.
#[tactic(auto, unfolding(task_bodies::specs::BlobLists::raw_blob_in, task_bodies::specs::BlobLists::blobs_in, json_fields::specs::Fields::object_item, crate::specs::BodiesRead::fields_are_read))]
pub fn at_most_512_blobs_are_asked_for()
    ensures { blobs_in (object (member (codes "blobs") (array (items_of (replicate 513 (object (member (codes "digest") (string (codes "5891")) no_members))))) no_members)) ≡ Err (Broken (codes "blobs") Count) }
{}

/// A length of 0 means the greatest one.
#[tactic(auto, unfolding(task_bodies::specs::Stdouts::length_of, crate::specs::BodiesRead::fields_are_read))]
pub fn no_length_means_65536_bytes()
    ensures absent { length_of (pos 0) ≡ Ok 65536 }
    ensures one { length_of (pos 1) ≡ Ok 1 }
{}

/// Where the output begins and how much of it is asked for are read of their own fields.
#[tactic(auto, unfolding(task_bodies::specs::Stdouts::stdout_in, task_bodies::specs::Stdouts::length_of, crate::specs::BodiesRead::fields_are_read))]
pub fn an_output_is_asked_for_by_its_offset_and_a_length()
    ensures { stdout_in (object (member (codes "length") (whole 7) (member (codes "offset") (whole 3) (member (codes "task_id") (string (codes "10")) no_members)))) ≡ Ok (record { id = 16; offset = 3; length = 7 }) }
{}
