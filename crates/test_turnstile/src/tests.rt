use crate::{Journal, add_in_two, write_one};
use std::test::Fail;
use turnstile::Turnstile;

const COUNT: u32 = 1000;

#[test]
fn two_threads_take_turns(rt: HostRuntime) -> Result<(), Fail> {
    let (lock, pass) = Turnstile::new(rt.alloc(), Journal::new(rt.alloc(), 7))?;
    let (one, two) = lock.split(pass);
    let (one, two) = add_in_two(&rt, &lock, one, two, COUNT);
    assert!(rt; one.1 && two.1, "there is room");
    assert!(rt; !lock.alone(&one.0), "the other pass is out");
    let pass = lock.join(one.0, two.0);
    assert!(rt; pass.turns() == 2000);
    let Ok(journal) = lock.close(pass) else {
        panic!(rt; "both passes are joined")
    };
    assert!(rt; journal.entries.len() == 2000);
    assert!(rt; journal.rising(0) == COUNT && journal.rising(1) == COUNT);
    assert!(rt; journal.title == 7);
    Ok(())
}

#[test]
fn a_front_waits_for_nobody(rt: HostRuntime) -> Result<(), Fail> {
    let (lock, pass) = Turnstile::new(rt.alloc(), Journal::new(rt.alloc(), 7))?;
    let (mut one, two) = lock.split(pass);

    // While the other has its turn, before and after it raises an item, and once it has left.
    let mut turn = lock.enter(&rt, two);
    let before = lock.front(&mut one);
    assert!(rt; write_one(&mut turn, 0).is_ok(), "there is room");
    let raised = lock.front(&mut one);
    let two = turn.leave();
    let left = lock.front(&mut one);
    assert!(rt; before == 0 && raised == 1 && left == 1);

    // The turnstile is closed once the passes are joined, and not before.
    match lock.close(one) {
        Ok(_) => panic!(rt; "a pass is out"),
        Err((lock, one)) => {
            let pass = lock.join(two, one);
            assert!(rt; pass.number() == 0 && lock.close(pass).is_ok());
        }
    }
    Ok(())
}
