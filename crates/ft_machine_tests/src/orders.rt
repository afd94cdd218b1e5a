//! The order of a schedule's instructions.
use crate::checked::decode_and_schedule;
use crate::full::FULL;
use ft_types::Object;
use ft_worked_objects::{A, I, J, K, L, Q, X};
use std::alloc::Global;
use std::test::Fail;

/// Objects, each with its schedule: the places of the instructions in the object, in the schedule's order.
const ORDERS: &[(&[u8], &[usize])] = &[
    (A, &[0, 1, 4, 2, 3, 5, 6]),
    (Q, &[0, 1, 2, 6, 7, 8, 12, 3, 4, 5, 9, 10, 11, 13, 14]),
    (X, &[0, 1, 2, 6, 3, 4, 5, 7, 8]),
    (L, &[0, 1, 2, 5, 3, 4, 6, 7]),
    (J, &[0, 2, 1, 3, 4, 5, 6, 8, 7, 9, 10]),
    (K, &[0, 2, 1, 3, 4, 5, 6, 7, 9, 8, 10, 11]),
    (I, &[0, 1, 2, 6, 3, 4, 5, 7, 8]),
    (
        FULL,
        &[
            0, 1, 4, 5, 6, 7, 8, 9, 10, 12, 2, 3, 11, 13, 14, 15, 16, 17, 18, 19, 20, 21, 22, 23,
            24,
        ],
    ),
];

/// Whether the schedule has the object's instructions in this order.
fn is_ordered(object: &Object, schedule: &Object, order: &[usize]) -> bool {
    if schedule.instrs.len() != order.len() {
        return false;
    }
    for i in 0..order.len() {
        let from = order[i];
        if from >= object.instrs.len() || i >= schedule.instrs.len() {
            return false;
        }
        if object.instrs.at(from) != schedule.instrs.at(i) {
            return false;
        }
    }
    true
}

/// Fails unless the object of these bytes is scheduled in this order.
fn check_order(alloc: Global, bytes: &[u8], order: &[usize]) -> Result<(), Fail> {
    let (object, schedule) = decode_and_schedule(alloc, bytes)?;
    if is_ordered(&object, &schedule, order) {
        return Ok(());
    }
    Err(Fail::new(format_args!("another order of {} instructions", order.len())))
}

#[test]
fn instructions_stand_in_the_order_of_the_definition(rt: HostRuntime) -> Result<(), Fail> {
    for (bytes, order) in ORDERS {
        check_order(rt.alloc(), bytes, order)?;
    }
    Ok(())
}
