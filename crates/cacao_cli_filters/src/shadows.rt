// The lines of rules that never decide.
ghost use Rattle.std.specs.Prelude.{◌≡◌, IfOk, map};
ghost use Rattle.std.specs.String.{string_bytes};
ghost use Rattle.cacao_cli_filters.specs.Lines.{AreShadowLines, shadow_line};

use slpf_rules::Table;
use slpf_shadow::{Shadow, shadowed};
use std::alloc::{AllocError, Global};

/// A line `RULE by EARLIER` for each rule that an earlier one shadows by itself, in order of number.
pub fn shadow_lines(alloc: Global, table: &Table) -> Result<Vec<String>, AllocError>
    ensures { IfOk result (λ lines. AreShadowLines table.now (map string_bytes lines.items)) }
{
    let list = shadowed(alloc, table)?;
    lines_of(alloc, list.as_slice())
}

fn lines_of(alloc: Global, shadows: &[Shadow]) -> Result<Vec<String>, AllocError>
    ensures { IfOk result (λ lines. map string_bytes lines.items ≡ map shadow_line shadows.now) }
{
    let mut lines = Vec::new(alloc);
    for shadow in shadows {
        lines.push(shadow_line(alloc, *shadow)?)?;
    }
    Ok(lines)
}

fn shadow_line(alloc: Global, shadow: Shadow) -> Result<String, AllocError>
    ensures { IfOk result (λ text. string_bytes text ≡ shadow_line shadow) }
{
    let rule = shadow.rule;
    let by = shadow.by;
    format!(in alloc; "{rule} by {by}\n")
}
