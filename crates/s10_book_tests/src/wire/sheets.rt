//! Sheets: how many identifiers they have, and which.

use crate::wire::vectors::serial;
use s10_core::{Country, Id, Service};
use s10_test_help::expect::same;
use s10_wire::{Count, Ids};
use std::process::Abort;

fn id(rt: &impl Abort, value: u32) -> Id {
    Id {
        service: Service::new(*b"RA").unwrap(),
        serial: serial(rt, value),
        country: Country::new(*b"GB").unwrap(),
    }
}

/// Returns the identifiers with the serials 0 to 16, one more than a sheet may have.
fn seventeen(rt: &impl Abort) -> [Id; 17] {
    let mut ids = [id(rt, 0); 17];
    for place in 1..17 {
        ids[place] = id(rt, place as u32);
    }
    ids
}

/// Returns the sheet of the first `labels` identifiers, or `None` if there is no such sheet.
fn sheet(ids: &[Id], labels: usize) -> Option<Ids> {
    if labels <= ids.len() {
        Ids::new(&ids[..labels])
    } else {
        None
    }
}

/// Returns how many identifiers that sheet has.
fn len(ids: &[Id], labels: usize) -> Option<usize> {
    let sheet = sheet(ids, labels)?;
    Some(sheet.len())
}

/// Returns the serial at index `at` of that sheet.
fn serial_at(ids: &[Id], labels: usize, at: usize) -> Option<u32> {
    let sheet = sheet(ids, labels)?;
    let id = sheet.get(at)?;
    Some(id.serial.value())
}

/// Returns whether the sheet of the first `labels` identifiers equals the sheet of `those`.
fn is_sheet_of(ids: &[Id], labels: usize, those: &[Id]) -> bool {
    match (sheet(ids, labels), Ids::new(those)) {
        (Some(left), Some(right)) => left == right,
        _ => false,
    }
}

/// Values, and the count that each gives, if any.
const COUNTS: &[(u8, Option<u8>)] = &[
    (0, None),
    (1, Some(1)),
    (16, Some(16)),
    (17, None),
    (255, None),
];

fn counted(value: u8) -> Option<u8> {
    let count = Count::new(value)?;
    Some(count.value())
}

#[test]
fn a_count_is_one_to_sixteen(rt: HostRuntime) {
    for (value, told) in COUNTS {
        assert!(rt; same(&rt, value, &counted(*value), told));
    }
}

/// Numbers of identifiers, and the length of the sheet of each, if there is one.
const LENGTHS: &[(usize, Option<usize>)] = &[(0, None), (1, Some(1)), (16, Some(16)), (17, None)];

#[test]
fn a_sheet_has_one_to_sixteen_labels(rt: HostRuntime) {
    let ids = seventeen(&rt);
    for (labels, told) in LENGTHS {
        assert!(rt; same(&rt, labels, &len(&ids, *labels), told));
    }
}

/// Number of identifiers, an index, and the serial at that index, if any.
const PLACES: &[(usize, usize, Option<u32>)] = &[
    (0, 0, None),
    (1, 0, Some(0)),
    (1, 1, None),
    (16, 0, Some(0)),
    (16, 15, Some(15)),
    (16, 16, None),
    (17, 0, None),
];

#[test]
fn labels_are_counted_from_0(rt: HostRuntime) {
    let ids = seventeen(&rt);
    for (labels, at, serial) in PLACES {
        assert!(rt; same(&rt, &(*labels, *at), &serial_at(&ids, *labels, *at), serial));
    }
}

#[test]
fn sheets_are_equal_if_their_labels_are_equal_in_order(rt: HostRuntime) {
    let ids = seventeen(&rt);
    let pair = [id(&rt, 0), id(&rt, 1)];
    let turned = [id(&rt, 1), id(&rt, 0)];
    let one = [id(&rt, 0)];
    let twice = [id(&rt, 0), id(&rt, 0)];
    let alike = [id(&rt, 0); 16];
    assert!(rt; is_sheet_of(&ids, 2, &pair));
    assert!(rt; is_sheet_of(&ids, 1, &one));
    assert!(rt; !is_sheet_of(&ids, 2, &turned));
    assert!(rt; !is_sheet_of(&ids, 1, &twice));
    assert!(rt; !is_sheet_of(&ids, 16, &alike));
}
