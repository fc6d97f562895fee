// Numbers in the fields of a row.
use test_rows::Row;

/// The number in a field; the greatest where there is none.
pub fn number(row: &Row, field: usize) -> u64 {
    match row.text(field).parse::<u64>() {
        Ok(number) => number,
        Err(_) => u64::MAX,
    }
}

/// A small number in a field, such as that of a file; 255 where there is none.
pub fn small(row: &Row, field: usize) -> u8 {
    number(row, field).min(255) as u8
}
