//! Bytes of contents in their places.
ghost use Rattle.std.specs.Prelude.{◌≡◌, ℕ, ◌+◌, ◌≤◌, length, take, drop, vec_capacity};
ghost use Rattle.content_store.specs.Slots.{part, with_part, AreBeside};

/// Makes the bytes at least so many, with zeros, where there is room for them.
fn lengthen(bytes: &mut Vec<u8>, end: usize)
    requires { end ≤ vec_capacity bytes.old }
    ensures long { end ≤ length bytes.new.items }
    ensures front { take (length bytes.old.items) bytes.new.items ≡ bytes.old.items }
    ensures keeps { length bytes.old.items ≤ length bytes.new.items }
    ensures room { vec_capacity bytes.old ≤ vec_capacity bytes.new }
{
    if bytes.len() < end {
        match bytes.resize(end, 0) {
            Ok(()) => {}
            Err(_) => unreachable!(),
        }
    }
}

fn put(bytes: &mut [u8], start: usize, content: &[u8])
    requires { start + length content.now ≤ length bytes.old }
    ensures { bytes.new ≡ with_part start content.now bytes.old }
{
    bytes[start..start + content.len()].copy_from_slice(content);
}

fn put_in(bytes: &mut Vec<u8>, start: usize, content: &[u8])
    requires { start + length content.now ≤ length bytes.old.items }
    ensures items { bytes.new.items ≡ with_part start content.now bytes.old.items }
    ensures room { vec_capacity bytes.old ≤ vec_capacity bytes.new }
{
    put(bytes.as_mut_slice(), start, content);
}

/// Copies a content to its place; bytes of other places stay as they are.
pub(crate) fn write(bytes: &mut Vec<u8>, start: usize, content: &[u8])
    requires { start + length content.now ≤ vec_capacity bytes.old }
    ensures there { part start (length content.now) bytes.new.items ≡ content.now }
    ensures long { start + length content.now ≤ length bytes.new.items }
    ensures others { (other size : ℕ) → other + size ≤ length bytes.old.items → AreBeside start (length content.now) other size →
        part other size bytes.new.items ≡ part other size bytes.old.items }
    ensures keeps { length bytes.old.items ≤ length bytes.new.items }
    ensures room { vec_capacity bytes.old ≤ vec_capacity bytes.new }
{
    lengthen(bytes, start + content.len());
    put_in(bytes, start, content);
}

/// So many bytes from a place on.
pub(crate) fn part(bytes: &[u8], start: usize, size: usize) -> &[u8]
    requires { start + size ≤ length bytes.now }
    ensures part { result.now ≡ part start size bytes.now }
    ensures size { length result.now ≡ size }
{
    &bytes[start..start + size]
}
