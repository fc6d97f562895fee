// Rows that play the ends alone, and against one another.
use crate::wire_arounds::around_of;
use crate::wire_asked::asked_of;
use crate::wire_scene::Scene;
use crate::wire_texts;
use std::alloc::{AllocError, Global};
use test_rows::Row;
use test_wire_plays::{Arounds, Asked, Asking, Talk, alone, answer, are_of, ask, calm, play_both};

/// Bytes that are repeated so often, with others behind them: three fields of a row, the first of this number.
fn repeated(alloc: Global, row: &Row, first: usize) -> Result<Vec<u8>, AllocError> {
    let mut bytes = Vec::new(alloc);
    let times = match row.text(first).parse::<u32>() {
        Ok(times) => times.min(2_000_000),
        Err(_) => 0,
    };
    for _time in 0..times {
        bytes.extend_from_slice(row.bytes(first.saturating_add(1)))?;
    }
    bytes.extend_from_slice(row.bytes(first.saturating_add(2)))?;
    Ok(bytes)
}

/// What the engine's end did; nothing where the row does not play it.
fn asking(alloc: Global, scene: &Scene, row: &Row) -> Result<Option<Asking>, AllocError> {
    let Some(around) = around_of(row.text(1)) else {
        return Ok(None);
    };
    let Some(asked) = asked(scene, row, 2) else {
        return Ok(None);
    };
    let bytes = repeated(alloc, row, 5)?;
    let asking = ask(alloc, around, &scene.engine, asked, bytes.as_slice())?;
    Ok(Some(asking))
}

/// Plays the engine's end: what it said and how it ended.
pub(crate) fn engine(
    alloc: Global,
    scene: &mut Scene,
    row: &Row,
) -> Result<Option<String>, AllocError> {
    let Some(asking) = asking(alloc, scene, row)? else {
        return Ok(None);
    };
    let text = wire_texts::asking(alloc, &asking)?;
    scene.commands = asking.sent.as_slice().to_vec(alloc)?;
    scene.engine = asking.kept;
    Ok(Some(text))
}

/// Plays the end of the filters: how it ended.
pub(crate) fn filters(
    alloc: Global,
    scene: &mut Scene,
    row: &Row,
) -> Result<Option<String>, AllocError> {
    let Some(around) = around_of(row.text(1)) else {
        return Ok(None);
    };
    let bytes = repeated(alloc, row, 2)?;
    let answering = answer(alloc, around, &scene.filters, bytes.as_slice())?;
    let text = wire_texts::answering(alloc, &answering)?;
    scene.replies = answering.sent.as_slice().to_vec(alloc)?;
    scene.filters = answering.kept;
    Ok(Some(text))
}

/// What a row asks of a session; nothing where it does not.
fn asked<'a>(scene: &'a Scene, row: &'a Row, first: usize) -> Option<Asked<'a>> {
    let second = first.saturating_add(1);
    let third = first.saturating_add(2);
    asked_of(
        scene.book(row.text(first)),
        row.text(second),
        row.text(third),
    )
}

/// What both ends did against one another; nothing where the row does not play them.
fn talked(alloc: Global, scene: &Scene, row: &Row) -> Result<Option<Talk>, AllocError> {
    let (Some(engine), Some(filters)) = (around_of(row.text(1)), around_of(row.text(2))) else {
        return Ok(None);
    };
    let Some(asked) = asked(scene, row, 3) else {
        return Ok(None);
    };
    let arounds = Arounds { engine, filters };
    let talk = play_both(alloc, arounds, &scene.engine, &scene.filters, asked)?;
    Ok(Some(talk))
}

/// Plays both ends against one another: what came of both.
pub(crate) fn both(
    alloc: Global,
    scene: &mut Scene,
    row: &Row,
) -> Result<Option<String>, AllocError> {
    let Some(talk) = talked(alloc, scene, row)? else {
        return Ok(None);
    };
    let text = wire_texts::talk(alloc, &talk)?;
    keep(alloc, scene, talk)?;
    Ok(Some(text))
}

/// Keeps what both ends left.
fn keep(alloc: Global, scene: &mut Scene, talk: Talk) -> Result<(), AllocError> {
    let Talk {
        engine,
        filters,
        is_settled: _,
    } = talk;
    scene.commands = engine.sent.as_slice().to_vec(alloc)?;
    scene.engine = engine.kept;
    scene.replies = filters.sent.as_slice().to_vec(alloc)?;
    scene.filters = filters.kept;
    Ok(())
}

/// Whether the files are those of a session in one process.
pub(crate) fn same(alloc: Global, scene: &Scene, row: &Row) -> Result<Option<String>, AllocError> {
    let Some(asked) = asked(scene, row, 1) else {
        return Ok(None);
    };
    let all = alone(alloc, calm(), asked)?;
    let text = if are_of(&scene.engine, &scene.filters, &all) {
        "the same files"
    } else {
        "other files"
    };
    Ok(Some(String::from_str(alloc, text)?))
}
