ghost use Rattle.std.specs.Prelude.{◌≡◌, ◌≤◌, ◌-◌, ◌^◌, ◌↔◌, [], ◌∷◌, ◌++◌};
ghost use Rattle.std.specs.Prelude.{IfOk, OnOk, OnErr, IfErr, IfSome, OnSome, IfNone, IsTrue};
ghost use Rattle.std.specs.Prelude.{IsSorted, IsPermutation, string_bytes};
ghost use Rattle.std.specs.Map.{lookup, remove_entry};
ghost use Rattle.std.specs.Str.{bytes_eq};
ghost use Rattle.dimensions.specs.Order.{text_cmp};
ghost use Rattle.named_caches.specs.Caches.{IsWithin, names_of, bytes_of, by_bytes};

use dimensions::{Seq, Text};
use lru::LruCache;
use std::alloc::{AllocError, Global};
use std::marker::Model;

/// The names of the caches that a bot keeps, with their sizes in bytes, and how many there may be and
/// how large. Both limits hold only once [`CacheTable::trim_one`] answers none.
#[derive(Drop)]
pub struct CacheTable {
    alloc: Global,
    caches: LruCache<String, u64>,
    most: u32,
    most_bytes: u64,
}

impl Model for CacheTable {
    ghost use Rattle.std.specs.Prelude.{◌≡◌, ◌-◌, ◌^◌};
    ghost use Rattle.named_caches.specs.Caches.{Caches, by_bytes};

    ghost Value = { Caches };

    ghost view = { λ t. record { entries = by_bytes t.caches.entries; most = t.most; most_bytes = t.most_bytes } };

    ghost invariant = { λ t. t.caches.cap ≡ 2 ^ 64 - 1 };
}

/// Whether the sizes add up to at most `most`.
fn sizes_fit(caches: &LruCache<String, u64>, most: u64) -> bool
    ensures { IsTrue result ↔ (bytes_of (by_bytes caches.now.entries) ≤ most) }
{
    let mut sum = 0u64;
    for (_, size) in caches.iter() {
        match sum.checked_add(*size) {
            Some(more) if more <= most => sum = more,
            _ => return false,
        }
    }
    true
}

/// Whether both limits hold.
#[tactic(auto, using(crate::proofs::Entries::length_by_bytes))]
fn is_within(caches: &LruCache<String, u64>, most: u32, most_bytes: u64) -> bool
    ensures { IsTrue result ↔ IsWithin (record { entries = by_bytes caches.now.entries; most = most; most_bytes = most_bytes }) }
{
    caches.len() <= most as usize && sizes_fit(caches, most_bytes)
}

/// Takes the pair of a name out.
fn take_out(caches: &mut LruCache<String, u64>, name: &str) -> Option<u64>
    ensures size { result ≡ lookup (bytes_eq name.now) (by_bytes caches.old.entries) }
    ensures rest { by_bytes caches.new.entries ≡ remove_entry (bytes_eq name.now) (by_bytes caches.old.entries) }
    ensures cap { caches.new.cap ≡ caches.old.cap }
{
    caches.pop(name)
}

/// Takes the last pair out, where there is one.
fn take_last(caches: &mut LruCache<String, u64>) -> Option<(Text, u64)>
    ensures none { IfNone result (caches.new ≡ caches.old) }
    ensures empty { IfNone result (caches.old.entries ≡ []) }
    ensures last { IfSome result (λ e. by_bytes caches.old.entries ≡ by_bytes caches.new.entries ++ e ∷ []) }
    ensures cap { caches.new.cap ≡ caches.old.cap }
{
    let (name, size) = caches.pop_lru()?;
    Some((Text::from_string(name), size))
}

/// Puts a name first, in place of the same name.
fn put_first(caches: &mut LruCache<String, u64>, name: String, size: u64) -> Result<(), String>
    requires roomy { caches.old.cap ≡ 2 ^ 64 - 1 }
    ensures ok { OnOk result (by_bytes caches.new.entries ≡ (string_bytes name, size) ∷ remove_entry (bytes_eq (string_bytes name)) (by_bytes caches.old.entries)) }
    ensures err { OnErr result (caches.new ≡ caches.old) }
    ensures back { IfErr result (λ n. n ≡ name) }
    ensures cap { caches.new.cap ≡ caches.old.cap }
{
    let _fits = caches.len();
    match caches.put(name, size) {
        Ok(_) => Ok(()),
        Err(refused) => Err(refused.value.0),
    }
}

/// The names, in the order of their last use.
fn copy_names(alloc: Global, caches: &LruCache<String, u64>) -> Result<Seq<Text>, AllocError>
    ensures { IfOk result (λ names. names ≡ names_of (by_bytes caches.now.entries)) }
{
    let mut names = Seq::new(alloc);
    for (name, _) in caches.iter() {
        names.try_push(Text::from_str(alloc, name.as_str())?)?;
    }
    Ok(names)
}

impl CacheTable {
    /// A table without caches.
    pub fn new(alloc: Global, most: u32, most_bytes: u64) -> Result<CacheTable, AllocError>
        ensures { IfOk result (λ t. t ≡ record { entries = []; most = most; most_bytes = most_bytes }) }
    {
        Ok(CacheTable {
            alloc,
            caches: LruCache::unbounded(alloc)?,
            most,
            most_bytes,
        })
    }

    /// Takes the cache of a name out, where there is one, and answers its size. It takes no memory.
    pub fn take(&mut self, name: &str) -> Option<u64>
        ensures size { result ≡ lookup (bytes_eq name.now) self.old.entries }
        ensures rest { self.new ≡ record self.old { entries = remove_entry (bytes_eq name.now) self.old.entries } }
    {
        take_out(&mut self.caches, name)
    }

    /// Puts a cache first, in place of one of its name.
    ///
    /// # Errors
    ///
    /// There was no memory: the table is as it was, and the name comes back.
    pub fn give_back(&mut self, name: Text, size: u64) -> Result<(), (AllocError, Text)>
        ensures ok { OnOk result (self.new ≡ record self.old { entries = (name, size) ∷ remove_entry (bytes_eq name) self.old.entries }) }
        ensures err { OnErr result (self.new ≡ self.old) }
        ensures back { IfErr result (λ e. e.1 ≡ name) }
    {
        put_first(&mut self.caches, name.into_string(), size).map_err(|name| (
            AllocError,
            Text::from_string(name),
        ))
    }

    /// Takes the cache out that was used the longest ago, where there are too many caches or they are
    /// too large. It takes no memory.
    pub fn trim_one(&mut self) -> Option<(Text, u64)>
        ensures none { IfNone result (IsWithin self.old × (self.new ≡ self.old)) }
        ensures over { OnSome result (¬ IsWithin self.old) }
        ensures last { IfSome result (λ e. self.old.entries ≡ self.new.entries ++ e ∷ []) }
        ensures limits { (self.new.most ≡ self.old.most) × (self.new.most_bytes ≡ self.old.most_bytes) }
    {
        if is_within(&self.caches, self.most, self.most_bytes) {
            return None;
        }
        take_last(&mut self.caches)
    }

    /// The names, in the order of their bytes.
    pub fn names(&self) -> Result<Seq<Text>, AllocError>
        ensures sorted { IfOk result (λ names. IsSorted text_cmp names) }
        ensures all { IfOk result (λ names. IsPermutation (names_of self.now.entries) names) }
    {
        copy_names(self.alloc, &self.caches)?.into_sorted()
    }
}
