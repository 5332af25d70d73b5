use crate::sorted_links::Keyed;
use task_props::Digest;

/// What links of digests are searched by.
#[derive(Drop)]
pub(crate) struct DigestKey<'a> {
    pub(crate) digest: &'a Digest,
}

impl<'a> Keyed for DigestKey<'a> {
    ghost use Rattle.pool_index.specs.SortedLinks.{digest_key};

    ghost key = { λ sought. digest_key sought.digest.now };
}
