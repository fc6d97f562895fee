// Records that a row gives.
use cacao_site::Bytes;
use run_records::Record;
use std::alloc::{AllocError, Global};
use test_rows::Row;

/// The number in a field; 0 where there is none.
pub(crate) fn number(row: &Row, field: usize) -> u64 {
    match row.text(field).parse::<u64>() {
        Ok(number) => number,
        Err(_) => 0,
    }
}

/// The number of an issue, or of a rule, in a field; 0 where there is none.
pub(crate) fn small_number(row: &Row, field: usize) -> u32 {
    match row.text(field).parse::<u32>() {
        Ok(number) => number,
        Err(_) => 0,
    }
}

/// The status in a field; 0 where there is none.
fn status(row: &Row, field: usize) -> u16 {
    match row.text(field).parse::<u16>() {
        Ok(number) => number,
        Err(_) => 0,
    }
}

/// The record that a row gives from outside: `reply ISSUE MOMENT STATUS RULE TEXT` (rule 0: none), `told ISSUE MOMENT STATUS TEXT`,
/// `expire ISSUE MOMENT`, and `upgrade MOMENT` for any other word.
pub(crate) fn given(alloc: Global, row: &Row) -> Result<Record, AllocError> {
    let issue = small_number(row, 1);
    let moment = number(row, 2);
    match row.text(0) {
        "reply" => Ok(Record::Reply {
            issue,
            moment,
            status: status(row, 3),
            rule: small_number(row, 4),
            text: Bytes::from_slice(alloc, row.bytes(5))?,
        }),
        "told" => Ok(Record::Told {
            issue,
            moment,
            status: status(row, 3),
            text: Bytes::from_slice(alloc, row.bytes(4))?,
        }),
        "expire" => Ok(Record::Expire { issue, moment }),
        _ => Ok(Record::Upgrade {
            version: 2,
            moment: number(row, 1),
        }),
    }
}
