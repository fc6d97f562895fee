// The lines of statements.
ghost use Rattle.std.specs.Prelude.{◌≡◌, ◌++◌, IfOk, OnOk, codes, None};
ghost use Rattle.std.specs.Option.{option_copied};
ghost use Rattle.cacao_view_graph.specs.Places.{place_of};
ghost use Rattle.cacao_view_graph.specs.Quoting.{quoted};
ghost use Rattle.cacao_view_graph.specs.Statements.{cluster, cluster_text, edge, frame, head_text, inside_text, line_of, node, node_text, pale_text, place_text, within};

use crate::quoting::add_quoted;
use base_lines::{add, add_decimal};
use cacao_site::Bytes;
use std::alloc::{AllocError, Global};

/// The number of a playbook, and the key of a step of it.
#[derive(Clone, Copy)]
pub(crate) struct Place<'a> {
    pub number: u32,
    pub key: &'a str,
}

/// Adds a number and a key.
fn add_place(out: &mut Vec<u8>, place: &Place) -> Result<(), AllocError>
    ensures { OnOk result (out.new.items ≡ out.old.items ++ place_text (place_of place.now)) }
{
    add_decimal(out, place.number as u64)?;
    add(out, b" ")?;
    add(out, place.key.as_bytes())
}

/// Adds the name of a step.
fn add_node_name(alloc: Global, out: &mut Vec<u8>, place: &Place) -> Result<(), AllocError>
    ensures { OnOk result (out.new.items ≡ out.old.items ++ quoted (place_text (place_of place.now))) }
{
    let mut name = Vec::new(alloc);
    add_place(&mut name, place)?;
    add_quoted(out, name.as_slice())
}

/// Adds the name of the cluster of a playbook.
fn add_cluster_name(alloc: Global, out: &mut Vec<u8>, number: u32) -> Result<(), AllocError>
    ensures { OnOk result (out.new.items ≡ out.old.items ++ quoted (cluster_text number None)) }
{
    let mut name = Vec::new(alloc);
    add(&mut name, b"cluster ")?;
    add_decimal(&mut name, number as u64)?;
    add_quoted(out, name.as_slice())
}

/// Adds the name of the cluster of a region.
fn add_region_name(alloc: Global, out: &mut Vec<u8>, place: &Place) -> Result<(), AllocError>
    ensures { OnOk result (out.new.items ≡ out.old.items ++ quoted (codes "cluster " ++ place_text (place_of place.now))) }
{
    let mut name = Vec::new(alloc);
    add(&mut name, b"cluster ")?;
    add_place(&mut name, place)?;
    add_quoted(out, name.as_slice())
}

/// Adds what stands in the cluster of a region, behind an opening of that.
fn add_in_region(
    alloc: Global,
    out: &mut Vec<u8>,
    opening: &[u8],
    place: &Place,
    text: &[u8],
) -> Result<(), AllocError>
    ensures { OnOk result (out.new.items ≡ out.old.items
        ++ (opening.now ++ (quoted (codes "cluster " ++ place_text (place_of place.now)) ++ (codes " { " ++ (text.now ++ codes " } }\n"))))) }
{
    add(out, opening)?;
    add_region_name(alloc, out, place)?;
    add(out, b" { ")?;
    add(out, text)?;
    add(out, b" } }\n")
}

/// Adds what stands in the cluster of a playbook, or in that of a region within it.
fn add_inside(
    alloc: Global,
    out: &mut Vec<u8>,
    number: u32,
    control: Option<&str>,
    text: &[u8],
) -> Result<(), AllocError>
    ensures { OnOk result (out.new.items ≡ out.old.items ++ inside_text number (option_copied control.entry) text.now) }
{
    match control {
        None => {
            add(out, b" { ")?;
            add(out, text)?;
            add(out, b" }\n")
        }
        Some(key) => add_in_region(alloc, out, b" { subgraph ", &Place { number, key }, text),
    }
}

/// The line of what stands in the cluster of a playbook, or in that of a region within it.
fn within(
    alloc: Global,
    number: u32,
    control: Option<&str>,
    text: &[u8],
) -> Result<Bytes, AllocError>
    ensures { IfOk result (λ line. line ≡ within number (option_copied control.entry) text.now) }
{
    let mut line = Vec::new(alloc);
    add(&mut line, b"subgraph ")?;
    add_cluster_name(alloc, &mut line, number)?;
    add_inside(alloc, &mut line, number, control, text)?;
    Ok(Bytes::from_vec(line))
}

/// The line that frames others.
pub(crate) fn frame_line(alloc: Global, text: &[u8]) -> Result<Bytes, AllocError>
    ensures { IfOk result (λ line. line ≡ line_of (frame text.now)) }
{
    let mut line = Vec::new(alloc);
    add(&mut line, text)?;
    add(&mut line, b"\n")?;
    Ok(Bytes::from_vec(line))
}

/// The line of a cluster.
pub(crate) fn cluster_line(
    alloc: Global,
    number: u32,
    control: Option<&str>,
    label: &[u8],
) -> Result<Bytes, AllocError>
    ensures { IfOk result (λ line. line ≡ line_of (cluster number (option_copied control.entry) label.now)) }
{
    let mut text = Vec::new(alloc);
    add(&mut text, b"label=")?;
    add_quoted(&mut text, label)?;
    within(alloc, number, control, text.as_slice())
}

/// Adds the end of the words of a step, which may be pale.
fn add_pale(out: &mut Vec<u8>, pale: bool) -> Result<(), AllocError>
    ensures { OnOk result (out.new.items ≡ out.old.items ++ pale_text pale) }
{
    if pale {
        return add(out, b", color=gray, fontcolor=gray]");
    }
    add(out, b"]")
}

/// Adds the name of a step, with its words and its shape.
fn add_node(
    alloc: Global,
    out: &mut Vec<u8>,
    place: &Place,
    label: &[u8],
    shape: &[u8],
    pale: bool,
) -> Result<(), AllocError>
    ensures { OnOk result (out.new.items ≡ out.old.items ++ node_text (place_of place.now) label.now shape.now pale) }
{
    add_node_name(alloc, out, place)?;
    add(out, b" [label=")?;
    add_quoted(out, label)?;
    add(out, b", shape=")?;
    add(out, shape)?;
    add_pale(out, pale)
}

/// The line of a step.
pub(crate) fn node_line(
    alloc: Global,
    place: &Place,
    control: Option<&str>,
    label: &[u8],
    shape: &[u8],
    pale: bool,
) -> Result<Bytes, AllocError>
    ensures { IfOk result (λ line. line ≡ line_of (node (place_of place.now) (option_copied control.entry) label.now shape.now pale)) }
{
    let mut text = Vec::new(alloc);
    add_node(alloc, &mut text, place, label, shape, pale)?;
    within(alloc, place.number, control, text.as_slice())
}

/// Adds the end of a link.
fn add_head(alloc: Global, out: &mut Vec<u8>, called: Option<u32>) -> Result<(), AllocError>
    ensures { OnOk result (out.new.items ≡ out.old.items ++ head_text called) }
{
    match called {
        None => add(out, b"]\n"),
        Some(number) => {
            add(out, b", lhead=")?;
            add_cluster_name(alloc, out, number)?;
            add(out, b"]\n")
        }
    }
}

/// Adds the two ends of a link.
fn add_ends(alloc: Global, out: &mut Vec<u8>, from: &Place, to: &Place) -> Result<(), AllocError>
    ensures { OnOk result (out.new.items ≡ out.old.items
        ++ (quoted (place_text (place_of from.now)) ++ (codes " -> " ++ (quoted (place_text (place_of to.now)) ++ codes " [label=")))) }
{
    add_node_name(alloc, out, from)?;
    add(out, b" -> ")?;
    add_node_name(alloc, out, to)?;
    add(out, b" [label=")
}

/// The line of a link.
pub(crate) fn edge_line(
    alloc: Global,
    from: &Place,
    to: &Place,
    name: &[u8],
    called: Option<u32>,
) -> Result<Bytes, AllocError>
    ensures { IfOk result (λ line. line ≡ line_of (edge (place_of from.now) (place_of to.now) name.now called)) }
{
    let mut line = Vec::new(alloc);
    add_ends(alloc, &mut line, from, to)?;
    add_quoted(&mut line, name)?;
    add_head(alloc, &mut line, called)?;
    Ok(Bytes::from_vec(line))
}
