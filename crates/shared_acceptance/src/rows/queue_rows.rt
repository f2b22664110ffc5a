//! Numbers put and taken by one thread.
use crate::threads::queue_users::{QueueCall, next_user};
use erase_queue::EraseQueue;
use std::test::Fail;

const ROWS: [QueueCall; 12] = [
    QueueCall::Put(0, true),
    QueueCall::Put(1, true),
    QueueCall::Put(2, true),
    QueueCall::Put(1, false),
    QueueCall::Take(Some(0)),
    QueueCall::Put(1, true),
    QueueCall::Take(Some(1)),
    QueueCall::Take(Some(2)),
    QueueCall::Counts(1, 0),
    QueueCall::Take(Some(1)),
    QueueCall::Take(None),
    QueueCall::Counts(1, 1),
];

#[test]
fn the_first_number_put_is_the_first_taken(rt: HostRuntime) -> Result<(), Fail> {
    let (queue, mut passes) = EraseQueue::new(rt.alloc(), 3, 1)?;
    assert!(rt; queue.limit() == 3);
    let mut user = next_user(&queue, &mut passes);
    assert!(rt; user.answers(&rt, &ROWS));
    Ok(())
}
