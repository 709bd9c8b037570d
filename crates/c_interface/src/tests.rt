// The functions that C calls, on a clockwork whose answers are known: the bell, which can be struck as soon after 2 as one likes.
use crate::exports::{pushkhami_ask, pushkhami_explore, pushkhami_words};
use crate::replies::Reply;
use std::process::Abort;
use std::test::Fail;

const BELL: [u32; 15] = [1, 2, 1, 0, 0, 3, 0, 0, 1, 1, 0, 3, 2, 1, 0];

const KINDS: u32 = 16;

const NO_REPLY: Reply = Reply { kind: 99, time: 99 };

#[test]
fn asks_of_each_position(rt: HostRuntime) -> Result<(), Fail> {
    let mut work = vec![in rt.alloc(); u32::MAX; pushkhami_words(BELL.len(), KINDS)]?;
    for (position, kind, time) in [(0, 1, 0), (1, 2, 2), (2, 7, 0)] {
        let reply = pushkhami_ask(&BELL, position, KINDS, work.as_mut_slice());
        assert_eq!(rt; reply.kind, kind, "the kind at {position}");
        assert_eq!(rt; reply.time, time, "the time at {position}");
    }
    let few = pushkhami_ask(&BELL, 0, KINDS + 1, work.as_mut_slice());
    assert_eq!(rt; few.kind, 5);
    let many = pushkhami_ask(&BELL, 0, 1, work.as_mut_slice());
    assert_eq!(rt; many.kind, 4);
    let broken = pushkhami_ask(&BELL[1..], 0, KINDS, work.as_mut_slice());
    assert_eq!(rt; broken.kind, 6);
    Ok(())
}

#[test]
fn explores_once_for_all(rt: HostRuntime) -> Result<(), Fail> {
    let mut work = vec![in rt.alloc(); u32::MAX; pushkhami_words(BELL.len(), KINDS)]?;
    let mut replies = [NO_REPLY; 3];
    let few = pushkhami_explore(&BELL, KINDS, work.as_mut_slice(), &mut replies[..1]);
    assert_eq!(rt; few.outcome, 8);
    assert_eq!(rt; few.positions, 2);
    assert_eq!(rt; replies[0].kind, 99);
    let explored = pushkhami_explore(&BELL, KINDS, work.as_mut_slice(), &mut replies);
    assert_eq!(rt; explored.outcome, 0);
    assert_eq!(rt; explored.positions, 2);
    for (position, kind, time) in [(0, 1, 0), (1, 2, 2), (2, 99, 99)] {
        assert_eq!(rt; replies[position].kind, kind, "the kind at {position}");
        assert_eq!(rt; replies[position].time, time, "the time at {position}");
    }
    Ok(())
}
