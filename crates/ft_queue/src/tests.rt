use crate::{Full, StoreQueue};
use std::test::Fail;

#[test]
fn holds_eight_pairs_in_order(rt: HostRuntime) -> Result<(), Fail> {
    let mut queue = StoreQueue::new(rt.alloc())?;
    assert_eq!(rt; queue.pop_oldest(), None);
    for i in 0..8u64 {
        queue.push(i % 3, 10 + i)?;
    }
    assert_eq!(rt; queue.push(9, 9), Err(Full));
    assert_eq!(rt; queue.len(), 8);
    assert_eq!(rt; queue.newest_at(1), Some(17));
    assert_eq!(rt; queue.newest_at(2), Some(15));
    assert_eq!(rt; queue.newest_at(3), None);
    assert_eq!(rt; queue.get(7), Some((1, 17)));
    assert_eq!(rt; queue.get(8), None);
    assert_eq!(rt; queue.pop_oldest(), Some((0, 10)));
    assert_eq!(rt; queue.get(0), Some((1, 11)));
    Ok(())
}

#[test]
fn strikes_one_half_of_a_pair(rt: HostRuntime) -> Result<(), Fail> {
    let mut queue = StoreQueue::new(rt.alloc())?;
    queue.push(1, 2)?;
    queue.push(3, 4)?;
    assert!(rt; queue.strike_addr(1, 7));
    assert!(rt; queue.strike_value(0, 8));
    assert!(rt; !queue.strike_addr(2, 9));
    assert!(rt; !queue.strike_value(2, 9));
    assert_eq!(rt; queue.get(0), Some((1, 8)));
    assert_eq!(rt; queue.get(1), Some((7, 4)));
    assert_eq!(rt; queue.get(2), None);
    Ok(())
}
