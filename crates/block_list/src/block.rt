//! One block of a list.
ghost use Rattle.std.specs.Prelude.{◌≡◌, ◌⊎◌, ◌+◌, ◌≤◌, ◌<◌, ◌++◌, [], length, take, drop, vec_len, vec_capacity};
ghost use Rattle.std.specs.List.{insert, remove};
ghost use Rattle.block_list.specs.Blocks.{block_size, IsBlock, MayGrow, TakesItem};

/// How many items a block has at most.
pub(crate) const BLOCK_SIZE: usize = 128;

/// How many items stay in a block whose upper half moves.
pub(crate) const HALF_SIZE: usize = 64;

/// Puts an item into a list that has room for it.
pub(crate) fn insert_reserved<T>(items: &mut Vec<T>, index: usize, item: T)
    requires index { index ≤ vec_len items.old }
    requires room { vec_len items.old < vec_capacity items.old }
    ensures items { items.new.items ≡ insert items.old.items index item }
    ensures len { vec_len items.new ≡ vec_len items.old + 1 }
    ensures capacity { vec_capacity items.old ≤ vec_capacity items.new }
{
    match items.insert(index, item) {
        Ok(()) => {}
        Err(_) => unreachable!(),
    }
}

/// Moves the items of a list to the end of another, which has room for them.
pub(crate) fn append_reserved<T>(front: &mut Vec<T>, back: &mut Vec<T>)
    requires { vec_len front.old + vec_len back.old ≤ vec_capacity front.old }
    ensures items { front.new.items ≡ front.old.items ++ back.old.items }
    ensures len { vec_len front.new ≡ vec_len front.old + vec_len back.old }
    ensures capacity { vec_capacity front.old ≤ vec_capacity front.new }
    ensures moved { back.new.items ≡ [] }
    ensures back_capacity { vec_capacity back.new ≡ vec_capacity back.old }
{
    match front.append(back) {
        Ok(()) => {}
        Err(_) => unreachable!(),
    }
}

/// Moves the upper half of a full block into an empty one.
fn move_half<T: Copy>(block: &mut Vec<T>, spare: &mut Vec<T>)
    requires full { length block.old.items ≡ block_size }
    requires empty { spare.old.items ≡ [] }
    requires room { block_size ≤ vec_capacity spare.old }
    ensures block { block.new.items ≡ take 64 block.old.items }
    ensures spare { spare.new.items ≡ drop 64 block.old.items }
    ensures len { vec_len block.new ≡ 64 }
    ensures spare_len { vec_len spare.new ≡ 64 }
    ensures capacity { vec_capacity block.new ≡ vec_capacity block.old }
    ensures spare_capacity { vec_capacity spare.old ≤ vec_capacity spare.new }
{
    match spare.extend_from_slice(&block[HALF_SIZE..]) {
        Ok(()) => {}
        Err(_) => unreachable!(),
    }
    block.truncate(HALF_SIZE);
}

/// Puts an item into a full block, of which the upper half moves into an empty block.
fn insert_half<T: Copy>(block: &mut Vec<T>, spare: &mut Vec<T>, offset: usize, item: T)
    requires full { length block.old.items ≡ block_size }
    requires empty { spare.old.items ≡ [] }
    requires room { block_size ≤ vec_capacity spare.old }
    requires offset { offset ≤ block_size }
    ensures items { block.new.items ++ spare.new.items ≡ insert block.old.items offset item }
    ensures block { IsBlock block.new }
    ensures spare { IsBlock spare.new }
    ensures capacity { vec_capacity block.old ≤ vec_capacity block.new }
{
    move_half(block, spare);
    if offset <= HALF_SIZE {
        insert_reserved(block, offset, item);
    } else {
        insert_reserved(spare, offset - HALF_SIZE, item);
    }
}

/// Puts an item into a block. Where the block is full, the items behind come into the spare block:
/// the item alone, where it is to stand behind all others, or else the upper half of the block.
pub(crate) fn insert_or_split<T: Copy>(
    block: &mut Vec<T>,
    spare: &mut Vec<T>,
    offset: usize,
    is_last: bool,
    item: T,
)
    requires size { length block.old.items ≤ block_size }
    requires grow { MayGrow block.old }
    requires empty { spare.old.items ≡ [] }
    requires room { block_size ≤ length block.old.items → block_size ≤ vec_capacity spare.old }
    requires offset { offset ≤ length block.old.items }
    ensures { TakesItem offset item spare.new block.old block.new }
{
    if block.len() < BLOCK_SIZE {
        insert_reserved(block, offset, item);
    } else if is_last && offset == BLOCK_SIZE {
        spare.push_reserved(item);
    } else {
        insert_half(block, spare, offset, item);
    }
}

/// Keeps the larger of the spare block and one that was emptied.
pub(crate) fn keep_spare<T: Drop>(spare: &mut Vec<T>, emptied: Vec<T>)
    requires empty { spare.old.items ≡ [] }
    requires emptied { emptied.items ≡ [] }
    ensures items { spare.new.items ≡ [] }
    ensures capacity { vec_capacity spare.old ≤ vec_capacity spare.new }
{
    if spare.capacity() < emptied.capacity() {
        *spare = emptied;
    }
}
