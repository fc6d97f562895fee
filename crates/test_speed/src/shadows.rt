// How fast shadowed rules are listed.
use crate::report::{Measurement, since, used};
use crate::tables::{Kind, MOST, one_shadows_all};
use slpf_rules::Table;
use slpf_shadow::shadowed;
use std::io;
use std::time::CpuClock;

/// Measures the list of the shadowed rules of a full table.
fn list<R: Print + CpuClock + AllocGlobal>(rt: &R, table: &Table, what: &str) -> io::Result<()> {
    let start = used(rt)?;
    let list = shadowed(rt.alloc(), table)?;
    let time = since(rt, start)?;
    Measurement {
        what,
        rules: MOST,
        count: MOST,
        time,
        found: list.as_slice().len(),
        so: "listed as shadowed",
    }
    .say(rt)
}

/// Measures tables of one net a rule: where none is shadowed, and where the first shadows all others.
pub(crate) fn measure<R: Print + CpuClock + AllocGlobal>(rt: &R) -> io::Result<()> {
    list(rt, &Kind::Nets.table(rt.alloc(), MOST)?, "of one net each")?;
    list(
        rt,
        &one_shadows_all(rt.alloc(), MOST)?,
        "of nets in the first one's net",
    )
}
