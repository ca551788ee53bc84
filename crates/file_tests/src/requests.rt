// Request files, and their first errors.
use request_list::{MOST_REQUEST_UNITS, MOST_REQUESTS, RequestColumn, RequestFault, Requests};
use std::process::Abort;
use std::test::Fail;

// The file has exactly these requests, each an arrival and its units.
fn reads(rt: &(impl Abort + AllocGlobal), text: &[u8], wanted: &[(u64, u64)]) -> Result<(), Fail> {
    let requests = Requests::read(rt.alloc(), text).ok().ok_or("file")?;
    let mut found = Vec::new(rt.alloc());
    for i in 0..requests.count() {
        found.push((requests.arrival(i), requests.units(i)))?;
    }
    assert_eq!(rt; found.as_slice(), wanted);
    Ok(())
}

// The file is refused with this error.
fn refuses(rt: &(impl Abort + AllocGlobal), text: &[u8], want: RequestFault) {
    let found = Requests::read(rt.alloc(), text).err();
    assert_eq!(rt; found, Some(want));
}

#[test]
fn requests_of_a_file_are_read(rt: HostRuntime) -> Result<(), Fail> {
    for text in [
        b"arrival,units\n0,3\n1,6\n1,1152921504606846976\n".as_slice(),
        b"\xEF\xBB\xBFarrival,units\r\n0,\"3\"\r\n\"1\",6\r\n1,1152921504606846976",
        b"\"arrival\",units\r0,3\r1,6\n\n1,1152921504606846976\n\n",
    ] {
        reads(&rt, text, &[(0, 3), (1, 6), (1, MOST_REQUEST_UNITS)])?;
    }
    Ok(())
}

#[test]
fn a_header_alone_has_no_requests(rt: HostRuntime) -> Result<(), Fail> {
    for text in ["arrival,units", "arrival,units\n", "arrival,units\r\n\r\n"] {
        reads(&rt, text.as_bytes(), &[])?;
    }
    Ok(())
}

#[test]
fn the_last_arrival_may_be_any_tick(rt: HostRuntime) -> Result<(), Fail> {
    let text = b"arrival,units\n18446744073709551615,1\n18446744073709551615,2\n";
    reads(&rt, text, &[(u64::MAX, 1), (u64::MAX, 2)])
}

#[test]
fn the_header_is_checked_first(rt: HostRuntime) {
    for text in [
        "",
        "\n\n",
        "0,3\n",
        "arrival\n0,3\n",
        "units,arrival\n0,3\n",
        "arrival,units,task\n0,3\n",
        "Arrival,units\n0,3\n",
        "arrival, units\n0,3\n",
        "arrival,units\0\n0,3\n",
    ] {
        refuses(&rt, text.as_bytes(), RequestFault::Header);
    }
}

const BAD_NUMBERS: &[(&[u8], u64, RequestColumn)] = &[
    (b"arrival,units\n0,3\n,\n", 2, RequestColumn::Arrival),
    (b"arrival,units\n00,3\n", 1, RequestColumn::Arrival),
    (b"arrival,units\n-1,x\n", 1, RequestColumn::Arrival),
    (
        b"arrival,units\n18446744073709551616,3\n",
        1,
        RequestColumn::Arrival,
    ),
    (b"arrival,units\n1\0,3\n", 1, RequestColumn::Arrival),
    (b"arrival,units\n\xFF,3\n", 1, RequestColumn::Arrival),
    (b"arrival,units\n0,\n", 1, RequestColumn::Units),
    (b"arrival,units\n0, 3\n", 1, RequestColumn::Units),
    (
        b"arrival,units\n0,18446744073709551616\n",
        1,
        RequestColumn::Units,
    ),
    (b"arrival,units\n0,3\xC3\n", 1, RequestColumn::Units),
    (b"arrival,units\n2,1\n1,x\n", 2, RequestColumn::Units),
];

#[test]
fn a_field_that_is_not_a_number_is_refused(rt: HostRuntime) {
    for (text, row, column) in BAD_NUMBERS {
        refuses(
            &rt,
            text,
            RequestFault::BadNumber {
                row: *row,
                column: *column,
            },
        );
    }
}

const REFUSALS: &[(&str, RequestFault)] = &[
    (
        "arrival,units\n5\n",
        RequestFault::Fields { row: 1, count: 1 },
    ),
    (
        "arrival,units\n0,3\n1,2,3\n",
        RequestFault::Fields { row: 2, count: 3 },
    ),
    ("arrival,units\n0,0\n", RequestFault::Range { row: 1 }),
    (
        "arrival,units\n2,1\n1,1152921504606846977",
        RequestFault::Range { row: 2 },
    ),
    (
        "arrival,units\n2,1\n1,1\n0,0\n",
        RequestFault::Early { row: 2 },
    ),
    (
        "arrival,units\n0,1\n3,1\n3,1\n2,1",
        RequestFault::Early { row: 4 },
    ),
];

#[test]
fn the_first_refusal_is_the_answer(rt: HostRuntime) {
    for (text, want) in REFUSALS {
        refuses(&rt, text.as_bytes(), *want);
    }
}

// A file of `rows` rows, none of which is a request.
fn rows_text(rt: &impl AllocGlobal, rows: u64) -> Result<Vec<u8>, Fail> {
    let mut text = Vec::from_slice(rt.alloc(), b"arrival,units\n")?;
    for _row in 0..rows {
        text.extend_from_slice(b"0,0\n")?;
    }
    Ok(text)
}

#[test]
fn too_many_rows_are_refused_before_each_row(rt: HostRuntime) -> Result<(), Fail> {
    let text = rows_text(&rt, MOST_REQUESTS)?;
    refuses(&rt, &text, RequestFault::Range { row: 1 });
    let text = rows_text(&rt, MOST_REQUESTS + 1)?;
    refuses(
        &rt,
        &text,
        RequestFault::TooMany {
            count: MOST_REQUESTS + 1,
        },
    );
    Ok(())
}
