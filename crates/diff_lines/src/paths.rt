ghost use Rattle.std.specs.Prelude.{◌≡◌, ◌∷◌, [], ◌++◌, codes, IfOk, OnOk};
ghost use Rattle.guide_tree.specs.Words.{nodes_view, view};
ghost use Rattle.diff_lines.specs.Paths.{node_paths, nodes_paths, path_at, paths_of};

use guide_tree::Node;
use hub_kinds::{Items, NoMemory, Text};
use std::alloc::Global;

/// A path that `id` ends, after `above`.
fn path_with(alloc: Global, above: &[u8], id: &[u8]) -> Result<Vec<u8>, NoMemory>
    ensures { IfOk result (λ path. path.items ≡ above.now ++ id.now) }
{
    let mut path = Vec::from_slice(alloc, above)?;
    path.extend_from_slice(id)?;
    Ok(path)
}

/// What the paths in a loop begin with.
fn path_in(alloc: Global, above: &[u8], id: &[u8]) -> Result<Vec<u8>, NoMemory>
    ensures { IfOk result (λ path. path.items ≡ above.now ++ (id.now ++ codes "/")) }
{
    let mut path = path_with(alloc, above, id)?;
    path.extend_from_slice(b"/")?;
    Ok(path)
}

fn push_path(alloc: Global, paths: &mut Vec<Text>, above: &[u8], id: &[u8]) -> Result<(), NoMemory>
    ensures { OnOk result (paths.new.items ≡ paths.old.items ++ (above.now ++ id.now) ∷ []) }
{
    let path = path_with(alloc, above, id)?;
    paths.push(Items::from_vec(path))?;
    Ok(())
}

/// Adds the paths of a node and of what is in it.
#[cycle(walk)]
fn push_node(
    alloc: Global,
    paths: &mut Vec<Text>,
    above: &[u8],
    node: &Node,
) -> Result<(), NoMemory>
    ensures { OnOk result (paths.new.items ≡ paths.old.items ++ node_paths above.now (view node.now)) }
{
    match node {
        Node::Segment(slot) => push_path(alloc, paths, above, slot.id.as_slice()),
        Node::Loop(head, inner) => {
            push_path(alloc, paths, above, head.id.as_slice())?;
            let inside = path_in(alloc, above, head.id.as_slice())?;
            push_nodes(alloc, paths, inside.as_slice(), inner)
        }
    }
}

/// Adds the paths of nodes and of what is in them.
#[cycle(walk)]
fn push_nodes(
    alloc: Global,
    paths: &mut Vec<Text>,
    above: &[u8],
    nodes: &[Node],
) -> Result<(), NoMemory>
    ensures { OnOk result (paths.new.items ≡ paths.old.items ++ nodes_paths above.now (nodes_view nodes.now)) }
{
    for node in nodes {
        push_node(alloc, paths, above, node)?;
    }
    Ok(())
}

/// The paths of `nodes`, which are those of a guide, in the order of their numbers. The only error is out of memory.
pub fn paths_of(alloc: Global, nodes: &[Node]) -> Result<Vec<Text>, NoMemory>
    ensures { IfOk result (λ paths. paths.items ≡ paths_of (nodes_view nodes.now)) }
{
    let mut paths = Vec::new(alloc);
    push_nodes(alloc, &mut paths, b"", nodes)?;
    Ok(paths)
}

/// The path of the node with a number from 1 on.
pub(crate) fn path_at(paths: &[Text], number: u32) -> &[u8]
    ensures { result.now ≡ path_at paths.entry.now number }
{
    match paths.get((number as usize).saturating_sub(1)) {
        None => &[],
        Some(path) => path.as_slice(),
    }
}
