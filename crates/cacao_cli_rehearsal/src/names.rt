// Identifiers and commands, as texts.
ghost use Rattle.std.specs.Prelude.{◌≡◌, ◌≤◌, IfOk, string_bytes};
ghost use Rattle.cacao_cli_rehearsal.specs.Books.{after, allows, deletes, denies, head, identifier};

use std::alloc::{AllocError, Global};

/// The identifier of an object type with a number.
pub(crate) fn identifier(alloc: Global, kind: &str, number: u64) -> Result<String, AllocError>
    ensures { IfOk result (λ text. string_bytes text ≡ identifier kind.now number) }
{
    let text = format!(in alloc; "{kind}--00000000-0000-4000-8000-{number:012x}")?;
    Ok(text)
}

/// The step with which a position begins.
pub(crate) fn head(alloc: Global, position: u32) -> Result<String, AllocError>
    ensures { IfOk result (λ text. string_bytes text ≡ head position) }
{
    let number = 16 * position as u64;
    if position % 3 == 2 {
        identifier(alloc, "parallel", number)
    } else {
        identifier(alloc, "action", number)
    }
}

/// What follows a position, where the last one is this.
pub(crate) fn after(alloc: Global, last: u32, position: u32) -> Result<String, AllocError>
    requires { position ≤ last }
    ensures { IfOk result (λ text. string_bytes text ≡ after last position) }
{
    if position == last {
        identifier(alloc, "end", 2)
    } else {
        head(alloc, position + 1)
    }
}

/// The deny of a position's net.
pub(crate) fn denies(alloc: Global, position: u32) -> Result<String, AllocError>
    ensures { IfOk result (λ text. string_bytes text ≡ denies position) }
{
    let high = position / 256;
    let low = position % 256;
    let text = format!(in alloc;
        r#"{{"action":"deny","target":{{"ipv4_net":"10.{high}.{low}.0/24"}}}}"#
    )?;
    Ok(text)
}

/// The allow of the first or the second address of a position's net.
pub(crate) fn allows(alloc: Global, position: u32, branch: u32) -> Result<String, AllocError>
    ensures { IfOk result (λ text. string_bytes text ≡ allows position branch) }
{
    let high = position / 256;
    let low = position % 256;
    let text = format!(in alloc;
        r#"{{"action":"allow","target":{{"ipv4_net":"10.{high}.{low}.{branch}/32"}}}}"#
    )?;
    Ok(text)
}

/// The delete of the rule whose number the variable has.
pub(crate) fn deletes() -> &'static str
    ensures { result.now ≡ deletes }
{
    r#"{"action":"delete","target":{"slpf:rule_number":"__rule__:value"}}"#
}
