// Reading request files.
ghost use Rattle.std.specs.Prelude.{List, ◌≡◌, ◌≤◌, ◌<◌, ◌+◌, Ok, length, IfOk};
ghost use Rattle.dvs_base.specs.Widths.{u64_end};
ghost use Rattle.csv.specs.Records.{fields_of};
ghost use Rattle.csv_text.specs.Rows.{IsDefault, records_left};
ghost use Rattle.dvs_base.specs.Checks.{IsUnlessMemory};
ghost use Rattle.request_list.specs.Requests.{IsRequest, AreRequests};
ghost use Rattle.request_list.specs.declared.requests.Request.{Request};
ghost use Rattle.request_list.specs.RequestText.{IsRequestText};
ghost use Rattle.request_list.specs.RequestFile.{request_of_row, first_refusal, requests_of, request_file};

use crate::{MOST_REQUEST_UNITS, MOST_REQUESTS, Request, RequestColumn, RequestFault, Requests};
use csv::{ByteRecord, Reader};
use csv_text::{next_record, rows_reader, two_fields};
use dvs_base::{NoMemory, whole};
use std::alloc::Global;

// The request of a row, if the row before it arrives at `earlier`.
fn read_row(row: u64, earlier: u64, fields: &ByteRecord) -> Result<Request, RequestFault>
    ensures row { result ≡ request_of_row row earlier (fields_of fields.now) }
    ensures limits { IfOk result (λ r. IsRequest r) }
    ensures order { IfOk result (λ r. earlier ≤ r.arrival) }
{
    let count = fields.len() as u64;
    let (arrival, units) = two_fields(fields).ok_or(RequestFault::Fields { row, count })?;
    let arrival = whole(arrival).ok_or(RequestFault::BadNumber {
        row,
        column: RequestColumn::Arrival,
    })?;
    let units = whole(units).ok_or(RequestFault::BadNumber {
        row,
        column: RequestColumn::Units,
    })?;
    if units == 0 || units > MOST_REQUEST_UNITS {
        return Err(RequestFault::Range { row });
    }
    if arrival < earlier {
        return Err(RequestFault::Early { row });
    }
    Ok(Request { arrival, units })
}

// The refusal of a file if the row `count`, the last that was read, is refused: too many rows come before `why`.
fn refusal(
    mut count: u64,
    why: RequestFault,
    reader: &mut Reader<&[u8]>,
    fields: &mut ByteRecord,
) -> Result<RequestFault, NoMemory>
    requires default_reader { IsDefault reader.old }
    requires few { count + length (records_left reader.old) < u64_end }
    ensures { IfOk result (λ e. e ≡ first_refusal (count + length (records_left reader.old)) why) }
{
    while next_record(reader, fields)? {
        count += 1;
    }
    if count > MOST_REQUESTS {
        return Ok(RequestFault::TooMany { count });
    }
    Ok(why)
}

// The requests of the rows that a reader has left, counted from 1.
fn read_rows(
    alloc: Global,
    reader: &mut Reader<&[u8]>,
    fields: &mut ByteRecord,
) -> Result<Vec<Request>, RequestFault>
    requires default_reader { IsDefault reader.old }
    requires few { 1 + length (records_left reader.old) < u64_end }
    ensures rows { IsUnlessMemory RequestFault.NoMemory (λ v. v.items) result (requests_of (records_left reader.old)) }
    ensures limits { IfOk result (λ v. AreRequests v.items) }
{
    let mut requests = Vec::new(alloc);
    let mut row: u64 = 1;
    let mut earlier = 0;
    while next_record(reader, fields)? {
        match read_row(row, earlier, fields) {
            Ok(request) if row <= MOST_REQUESTS => {
                requests.push(request).map_err(|_| RequestFault::NoMemory)?;
                row += 1;
                earlier = request.arrival;
            }
            Ok(_) => {
                let many = RequestFault::TooMany { count: row };
                return Err(refusal(row, many, reader, fields)?);
            }
            Err(why) => return Err(refusal(row, why, reader, fields)?),
        }
    }
    Ok(requests)
}

// The requests of a file, or its first refusal, unless memory runs out.
fn read_requests(alloc: Global, bytes: &[u8]) -> Result<Requests, RequestFault>
    ensures file { IsUnlessMemory RequestFault.NoMemory (λ r. r) result (request_file bytes.now) }
    ensures limits { IfOk result (λ requests. AreRequests requests) }
{
    let mut fields = ByteRecord::new(alloc);
    let rows = rows_reader(alloc, bytes, &["arrival", "units"], &mut fields)?;
    let mut reader = rows.ok_or(RequestFault::Header)?;
    let requests = read_rows(alloc, &mut reader, &mut fields)?;
    Ok(Requests { requests })
}

impl Requests {
    /// The requests of a file: arrivals in ticks, units in work units. A file is read exactly if it is the text
    /// of some requests within the limits and in order, unless memory runs out. Otherwise the first refusal is
    /// returned: that of the header, then more than 100000 rows, and then row by row the number of fields, the
    /// arrival as a number, the units as a number, their range, and an arrival below that of the row before.
    pub fn read(alloc: Global, bytes: &[u8]) -> Result<Requests, RequestFault>
        ensures file { IsUnlessMemory RequestFault.NoMemory (λ r. r) result (request_file bytes.now) }
        ensures found { IfOk result (λ requests. IsRequestText requests bytes.now) }
        ensures texts { (requests : List Request) → IsRequestText requests bytes.now
            → IsUnlessMemory RequestFault.NoMemory (λ r. r) result (Ok requests) }
    {
        read_requests(alloc, bytes)
    }
}
