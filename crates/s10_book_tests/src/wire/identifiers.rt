//! Identifiers: their texts and their parts.

use s10_core::{Country, Group, Id, Serial, Service, TextFault, check_digit};
use s10_test_help::expect::same;
use std::process::Abort;
use std::test::Fail;

/// Serial numbers and their check digits, worked by hand from the weights of UPU S10. For the
/// first, S = 200 and C = 9.
const CHECK_DIGITS: &[(u32, u8)] = &[
    (47312482, 9),
    (12345678, 5),
    (0, 5),
    (1, 4),
    (2, 8),
    (3, 1),
    (4, 5),
    (8, 0),
    (9999, 4),
    (99999998, 7),
    (99999999, 5),
];

#[test]
fn check_digits_are_those_worked_by_hand(rt: HostRuntime) {
    for (value, digit) in CHECK_DIGITS {
        let serial = Serial::new(*value).expect(&rt, "a serial number");
        assert!(rt; same(&rt, value, &check_digit(serial), digit));
    }
}

/// Asserts that the identifier is written as this text, and that the text is read as it.
fn is_spelled(rt: &(impl Abort + Eprint), id: &Id, text: &[u8; 13]) {
    assert!(rt; same(rt, text, &id.write(), text));
    assert!(rt; same(rt, text, &Id::read(text), &Ok(*id)));
}

/// Digits of serial numbers, and the identifiers of RA GB with them.
const SPELLED: &[(&[u8], &[u8; 13])] = &[
    (b"00000000", b"RA000000005GB"),
    (b"00000001", b"RA000000014GB"),
    (b"00000002", b"RA000000028GB"),
    (b"00000003", b"RA000000031GB"),
    (b"00000004", b"RA000000045GB"),
    (b"00000008", b"RA000000080GB"),
    (b"12345678", b"RA123456785GB"),
    (b"99999998", b"RA999999987GB"),
    (b"99999999", b"RA999999995GB"),
];

#[test]
fn identifiers_are_spelled_from_their_parts(rt: HostRuntime) {
    for (digits, text) in SPELLED {
        let id = Id {
            service: Service::new(*b"RA").unwrap(),
            serial: Serial::read(digits).expect(&rt, "the digits of a serial number"),
            country: Country::new(*b"GB").unwrap(),
        };
        is_spelled(&rt, &id, text);
    }
}

/// Returns whether the identifier has these parts.
fn has_parts(id: &Id, letters: [u8; 2], group: Group, serial: u32, country: [u8; 2]) -> bool {
    id.service.bytes() == letters
        && id.service.group() == group
        && id.serial.value() == serial
        && id.country.bytes() == country
}

#[test]
fn a_label_is_read_without_its_spaces_and_in_capitals(rt: HostRuntime) {
    let id = Id::read_label(b"ra 473 124 829 us").expect(&rt, "a label");
    is_spelled(&rt, &id, b"RA473124829US");
    assert!(rt; has_parts(&id, *b"RA", Group::Registered, 47_312_482, *b"US"));
    let label = b"ra 473 124 82x us";
    assert!(rt;
        same(
            &rt,
            label,
            &Id::read_label(label),
            &Err(TextFault::Digit(10)),
        )
    );
}

const REFUSED: &[(&[u8], TextFault)] = &[
    (b"", TextFault::Length),
    (b"ra 473 124 829 us", TextFault::Length),
    (b"ra473124829US", TextFault::Letter(0)),
    (b"RA47312482XUS", TextFault::Digit(10)),
    (b"RA47312482XuS", TextFault::Digit(10)),
    (b"RA473124829uS", TextFault::Letter(11)),
    (b"RA473124828US", TextFault::CheckDigit),
];

#[test]
fn a_text_is_refused_for_its_first_fault(rt: HostRuntime) {
    for (text, fault) in REFUSED {
        assert!(rt; same(&rt, text, &Id::read(text), &Err(*fault)));
    }
}

#[test]
fn parts_out_of_range_are_refused(rt: HostRuntime) {
    assert!(rt; Service::new(*b"rA").is_none());
    assert!(rt; Country::new(*b"G1").is_none());
    assert!(rt; Serial::new(100_000_000).is_none());
    assert!(rt; Serial::read(b"1234567").is_none());
    assert!(rt; Serial::read(b"123456789").is_none());
    assert!(rt; Serial::read(b"1234567x").is_none());
}

const GROUPS: &[([u8; 2], Group)] = &[
    (*b"CA", Group::Parcel),
    (*b"EA", Group::Ems),
    (*b"RA", Group::Registered),
    (*b"VA", Group::Insured),
    (*b"LA", Group::Other),
];

#[test]
fn the_first_letter_names_the_group(rt: HostRuntime) {
    for (letters, group) in GROUPS {
        let service = Service::new(*letters).expect(&rt, "letters of a service");
        assert!(rt; same(&rt, letters, &service.group(), group));
    }
}

const TEXTS: &[(TextFault, &str)] = &[
    (TextFault::Length, "an identifier has 13 characters"),
    (TextFault::Letter(11), "place 11 needs a letter from A to Z"),
    (TextFault::Digit(2), "place 2 needs a digit"),
    (
        TextFault::CheckDigit,
        "the check digit is not that of the serial number",
    ),
];

#[test]
fn each_fault_has_its_text(rt: HostRuntime) -> Result<(), Fail> {
    for (fault, text) in TEXTS {
        assert!(rt;
            same(
                &rt,
                fault,
                &format!(in rt.alloc(); "{fault}")?.as_str(),
                text,
            )
        );
    }
    Ok(())
}
