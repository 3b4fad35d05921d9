// Frames of a pool that are taken again, and promises that are refused.

ghost use Rattle.std.specs.Prelude.{◌≡◌, true};
ghost use Rattle.frame_pool.specs.ChainView.{IsTaken};

use frame_pool::{FrameId, FramePool, PoolRefusal};
use std::process::Abort;

/// Whether a promise of so many frames is refused so.
fn refuses(pool: &mut FramePool, n: u32, words: PoolRefusal) -> bool
    ensures { result ≡ true → pool.new ≡ pool.old }
{
    match pool.promise(n) {
        Err(refusal) => refusal == words,
        Ok(chain) => {
            pool.give_back(chain);
            false
        }
    }
}

fn fill(pool: &mut FramePool, frame: FrameId)
    requires { IsTaken pool.old frame.number }
    ensures { pool.new.chains ≡ pool.old.chains }
{
    for slot in 0..=u8::MAX {
        pool.set_score(frame, slot, 2);
        pool.set_place(frame, slot, 2);
    }
}

fn check_zero(rt: &impl Abort, pool: &FramePool, frame: FrameId)
    requires { IsTaken pool.now frame.number }
{
    for slot in 0..=u8::MAX {
        assert!(rt; pool.score(frame, slot) == 0);
        assert!(rt; pool.place(frame, slot) == 0);
    }
}

/// Takes a frame for a page, which is all zero, and fills it.
fn take_and_fill(rt: &impl Abort, pool: &mut FramePool, page: u32) {
    let Ok(chain) = pool.promise(1) else {
        panic!(rt; "refused")
    };
    let frame = pool.take(&chain, page);
    check_zero(rt, pool, frame);
    fill(pool, frame);
    pool.give_back(chain);
}

#[test]
fn a_frame_taken_again_is_all_zero(rt: HostRuntime) {
    let Ok(mut pool) = FramePool::new(rt.alloc(), 1, 1) else {
        panic!(rt; "no memory")
    };
    take_and_fill(&rt, &mut pool, 7);
    take_and_fill(&rt, &mut pool, 9);
}

#[test]
fn promises_are_refused_by_name(rt: HostRuntime) {
    let Ok(mut pool) = FramePool::new(rt.alloc(), 3, 2) else {
        panic!(rt; "no memory")
    };
    let Ok(first) = pool.promise(1) else {
        panic!(rt; "refused")
    };
    assert!(rt; refuses(&mut pool, 3, PoolRefusal::Short { need: 3, free: 2 }));
    let Ok(second) = pool.promise(2) else {
        panic!(rt; "refused")
    };
    assert!(rt; refuses(&mut pool, 3, PoolRefusal::Chains { chains: 2 }));
    pool.give_back(first);
    pool.give_back(second);
    assert!(rt; pool.spare() == 3);
}
