//! A small table whose handles go in every order.

use std::alloc::{AllocError, Global};
use std::test::Fail;
use zl_rights::{Entry, HValue, Kind, Rights};
use zl_table::Table;

/// So many handles are in it.
const HANDLES: u32 = 5;
/// So many orders there are of them.
const ORDERS: u32 = 120;

fn event(koid: u64) -> Entry {
    Entry {
        koid,
        kind: Kind::Event,
        rights: Rights::READ,
    }
}

/// A table in which these values name the objects of the same numbers.
fn full(alloc: Global) -> Result<Table, AllocError> {
    let mut table = Table::new(alloc);
    for value in 1..=HANDLES {
        table
            .insert(event(u64::from(value)))
            .map_err(|_| AllocError)?;
    }
    Ok(table)
}

/// The values from 1 on, in the order of this number.
fn order(alloc: Global, number: u32) -> Result<Vec<HValue>, AllocError> {
    let mut order = Vec::new(alloc);
    let mut rest = number;
    for value in 1..=HANDLES {
        let place = (rest % value) as usize;
        rest /= value;
        order.insert(place.min(order.len()), value)?;
    }
    Ok(order)
}

/// Takes these handles out, in this order. Answers whether each was there, and goes once.
fn remove_all(table: &mut Table, order: &[HValue]) -> bool {
    for &value in order {
        let entry = Some(event(u64::from(value)));
        if table.get(value) != entry || table.remove(value) != entry || table.get(value).is_some() {
            return false;
        }
    }
    true
}

/// As many handles come in again. Answers whether each has the value that was freed last.
fn insert_all(table: &mut Table, order: &[HValue]) -> Result<bool, AllocError> {
    for &value in order.iter().rev() {
        if table.insert(event(10)).map_err(|_| AllocError)? != value {
            return Ok(false);
        }
    }
    Ok(true)
}

#[test]
fn five_handles_go_in_every_order_and_their_values_come_again(rt: HostRuntime) -> Result<(), Fail> {
    for number in 0..ORDERS {
        let mut table = full(rt.alloc())?;
        let order = order(rt.alloc(), number)?;
        assert!(rt; remove_all(&mut table, &order), "order {number}");
        assert!(rt; table.is_empty());
        assert!(rt; insert_all(&mut table, &order)?, "order {number}");
        assert_eq!(rt; table.len(), order.len());
    }
    Ok(())
}
