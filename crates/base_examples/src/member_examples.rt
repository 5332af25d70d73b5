//! The members of JSON objects at work (RFC 8259).
ghost use Rattle.std.specs.Prelude.{◌≡◌, true, false, codes};
ghost use Rattle.serde_json.specs.Data.{boolean, put, member, no_members};
ghost use Rattle.json_values.specs.Values.{whole};

/// A member is put under its own key, with its own value, among the members that are there.
pub fn a_member_has_its_key_and_its_value()
    ensures new { put (codes "fresh") (boolean true) (member (codes "size") (whole 6) no_members) ≡ member (codes "fresh") (boolean true) (member (codes "size") (whole 6) no_members) }
    ensures again { put (codes "fresh") (boolean false) (member (codes "fresh") (boolean true) no_members) ≡ member (codes "fresh") (boolean false) no_members }
{}
