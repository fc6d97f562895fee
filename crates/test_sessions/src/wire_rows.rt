// Rows of the ends of a wire.
use crate::wire_crashes::crashes;
use crate::wire_cuts::cuts;
use crate::wire_deliveries::deliveries;
use crate::wire_scene::Scene;
use crate::{wire_ends, wire_texts};
use std::alloc::{AllocError, Global};
use std::io;
use std::rt::Files;
use test_rows::{Row, Tally, read_file};
use test_wire_plays::{Kept, judge};

/// Blanks the files of both ends.
fn blank(alloc: Global, scene: &mut Scene) {
    scene.engine = Kept::blank(alloc);
    scene.filters = Kept::blank(alloc);
}

/// Gives a file of an end other bytes.
fn fill(alloc: Global, scene: &mut Scene, row: &Row) -> Result<(), AllocError> {
    let file = match row.text(2).parse::<u8>() {
        Ok(file) => file,
        Err(_) => 17,
    };
    if row.text(1) == "engine" {
        scene.engine = scene.engine.with(alloc, file, row.bytes(3))?;
    } else {
        scene.filters = scene.filters.with(alloc, file, row.bytes(3))?;
    }
    Ok(())
}

/// Plays a row that changes what the others are played on; false where it is none.
fn prepare(alloc: Global, scene: &mut Scene, row: &Row) -> Result<bool, AllocError> {
    match row.text(0) {
        "book" => scene.add_book(alloc, row)?,
        "blank" => blank(alloc, scene),
        "fill" => fill(alloc, scene, row)?,
        _ => return Ok(false),
    }
    Ok(true)
}

/// What came of a row that plays ends.
fn played(alloc: Global, scene: &mut Scene, row: &Row) -> Result<Option<String>, AllocError> {
    match row.text(0) {
        "engine" => wire_ends::engine(alloc, scene, row),
        "filters" => wire_ends::filters(alloc, scene, row),
        "both" => wire_ends::both(alloc, scene, row),
        "same" => wire_ends::same(alloc, scene, row),
        "cuts" => cuts(alloc, scene, row),
        "crashes" => crashes(alloc, scene, row),
        "deliveries" => deliveries(alloc, scene, row),
        "audit" => {
            let verdict = judge(alloc, &scene.engine, &scene.filters)?;
            Ok(Some(wire_texts::verdict(alloc, verdict)?))
        }
        _ => Ok(None),
    }
}

/// What came of a row; `no such row` where there is none of that kind.
fn came(alloc: Global, scene: &mut Scene, row: &Row) -> Result<Vec<u8>, AllocError> {
    if prepare(alloc, scene, row)? {
        return Vec::from_slice(alloc, b"ok");
    }
    match row.text(0) {
        "commands" => return scene.commands.as_slice().to_vec(alloc),
        "replies" => return scene.replies.as_slice().to_vec(alloc),
        _ => {}
    }
    match played(alloc, scene, row)? {
        Some(text) => Ok(text.into_bytes()),
        None => Vec::from_slice(alloc, b"no such row"),
    }
}

/// Plays the rows of the file of this name, with `.rows` behind it; whether all agreed.
pub(crate) fn play(rt: &(impl Print + Files + AllocGlobal), name: &str) -> io::Result<bool> {
    let file = format!(in rt.alloc(); "{name}.rows")?;
    let rows = read_file(rt, file.as_str())?;
    let mut tally = Tally::new(rt.alloc(), name)?;
    let mut scene = Scene::new(rt.alloc());
    for row in rows.as_slice() {
        let came = came(rt.alloc(), &mut scene, row)?;
        tally.compare(rt, row, came.as_slice())?;
    }
    tally.end(rt)
}
