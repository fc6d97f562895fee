// What is answered to a row.
use cacao_site::Failed;
use std::alloc::{AllocError, Global};

/// What a buffer holds before a read, to see that what lies behind the bytes read stays.
pub const FILLER: u8 = b'.';

/// A text.
pub fn text(alloc: Global, text: &str) -> Result<Vec<u8>, AllocError> {
    Vec::from_slice(alloc, text.as_bytes())
}

/// What is answered to a row where there is no call of its name.
pub fn no_such_row(alloc: Global) -> Result<Vec<u8>, AllocError> {
    text(alloc, "no such row")
}

/// `ok` or `failed`.
pub fn done(alloc: Global, done: Result<(), Failed>) -> Result<Vec<u8>, AllocError> {
    match done {
        Ok(()) => text(alloc, "ok"),
        Err(_) => text(alloc, "failed"),
    }
}

/// A number in decimal.
pub fn whole(alloc: Global, number: u64) -> Result<Vec<u8>, AllocError> {
    Ok(format!(in alloc; "{number}")?.into_bytes())
}

/// A number, or `failed`.
pub fn counted(alloc: Global, number: Result<u64, Failed>) -> Result<Vec<u8>, AllocError> {
    match number {
        Ok(number) => whole(alloc, number),
        Err(_) => text(alloc, "failed"),
    }
}

/// Puts bytes behind their count; of more than 400 that are alike, the one.
fn put_bytes(answer: &mut Vec<u8>, bytes: &[u8]) -> Result<(), AllocError> {
    let Some(first) = bytes.first() else {
        return Ok(());
    };
    if bytes.len() > 400 && bytes.iter().all(|byte| byte == first) {
        answer.extend_from_slice(b" of ")?;
        return answer.extend_from_slice(&bytes[..1]);
    }
    answer.extend_from_slice(b" ")?;
    answer.extend_from_slice(bytes)
}

/// How many bytes there are, and then the bytes; of more than 400 that are alike, the one.
pub fn listed(alloc: Global, bytes: &[u8]) -> Result<Vec<u8>, AllocError> {
    let mut answer = whole(alloc, bytes.len() as u64)?;
    put_bytes(&mut answer, bytes)?;
    Ok(answer)
}

/// The bytes that a read gave into the front of a buffer, and whether it changed what lies behind them.
pub fn read_into(alloc: Global, buffer: &[u8], count: u32) -> Result<Vec<u8>, AllocError> {
    let count = (count as usize).min(buffer.len());
    let mut answer = listed(alloc, &buffer[..count])?;
    if buffer[count..].iter().any(|byte| *byte != FILLER) {
        answer.extend_from_slice(b", and what lies behind changed")?;
    }
    Ok(answer)
}
