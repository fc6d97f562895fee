// Files that are made and looked at beside the site.
use std::alloc::{AllocError, Global};
use std::rt::Files;
use std::{fs, io};
use test_rows::Row;
use test_site_calls::answers::{text, whole};
use test_site_calls::{number, small};

/// `ok` or `failed`.
fn done(alloc: Global, done: io::Result<()>) -> Result<Option<Vec<u8>>, AllocError> {
    let word = if done.is_ok() { "ok" } else { "failed" };
    Ok(Some(text(alloc, word)?))
}

/// Takes the right to write a file.
fn protect<R: Files>(rt: &R, name: &str) -> io::Result<()> {
    let mut rights = rt.metadata(name)?.permissions();
    rights.set_readonly(true);
    rt.set_permissions(name, rights)
}

/// Makes a file of so many bytes that are alike.
fn make_long<R: Files>(rt: &R, alloc: Global, name: &str, count: u64, byte: u8) -> io::Result<()> {
    let mut bytes = Vec::new(alloc);
    bytes.resize(count.min(100_000) as usize, byte)?;
    fs::write(rt, name, bytes.as_slice())
}

/// How many bytes a file has; `none` where there is no such file.
fn size<R: Files>(rt: &R, alloc: Global, name: &str) -> Result<Vec<u8>, AllocError> {
    match rt.metadata(name) {
        Ok(metadata) => whole(alloc, metadata.len()),
        Err(_) => text(alloc, "none"),
    }
}

/// The answer to a row about the folder; none where it is no such row.
///
/// `file NAME BYTES` makes a file, `long NAME COUNT BYTE` one of bytes that are alike, `folder NAME` a folder; `rename NAME NAME`,
/// `protect NAME`, `remove NAME`, `remove_folder NAME`; `size NAME` is how many bytes a file has.
pub(crate) fn folder_answer<R: Files>(
    rt: &R,
    alloc: Global,
    row: &Row,
) -> Result<Option<Vec<u8>>, AllocError> {
    let name = row.text(1);
    match row.text(0) {
        "file" => done(alloc, fs::write(rt, name, row.bytes(2))),
        "long" => done(
            alloc,
            make_long(rt, alloc, name, number(row, 2), small(row, 3)),
        ),
        "folder" => done(alloc, fs::create_dir(rt, name)),
        "rename" => done(alloc, fs::rename(rt, name, row.text(2))),
        "protect" => done(alloc, protect(rt, name)),
        "remove" => done(alloc, fs::remove_file(rt, name)),
        "remove_folder" => done(alloc, fs::remove_dir(rt, name)),
        "size" => Ok(Some(size(rt, alloc, name)?)),
        _ => Ok(None),
    }
}
