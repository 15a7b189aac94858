//! The nodes of an image before a change.

ghost use Rattle.std.specs.Prelude.{◌≡◌, ◌≤◌, IfOk, length};
ghost use Rattle.act_image.specs.Paths.{HaveOwnCells, starts_from};
ghost use Rattle.act_image.specs.Pics.{node_at};

use crate::fits::fits;
use crate::nodes::NodePlace;
use act_grid::{Cell, NoMemory};
use std::alloc::Global;

/// The nodes of an image, level by level, how many child nodes each has, and all rows: those of nodes, then those of
/// lists, then those of chains.
#[derive(Clone, Copy)]
pub(crate) struct Old<'a> {
    pub nodes: &'a [NodePlace],
    pub under: &'a [u32],
    pub rows: &'a [u32],
}

/// Where the child nodes of each node begin: those of the first one stand behind it, and those of each behind those of the
/// node before.
pub(crate) fn child_starts(alloc: Global, under: &[u32]) -> Result<Vec<u32>, NoMemory>
    ensures { IfOk result (λ starts. starts.items ≡ starts_from 1 under.now) }
{
    let mut starts = Vec::with_capacity(alloc, under.len())?;
    let mut next = 1u32;
    for i in 0..under.len() {
        starts.push(next)?;
        next = fits(next as usize + under[i] as usize)?;
    }
    Ok(starts)
}

// Whether the first cell comes before the other one level by level, and by path in each level.
fn comes_before(cell: Cell, other: Cell) -> bool {
    cell.level() < other.level() || cell.level() == other.level() && cell.id() < other.id()
}

// Where the node of a cell stands if each node comes before the next one. It halves the nodes at each step.
fn guess(nodes: &[NodePlace], cell: Cell) -> usize
    ensures { result ≤ length nodes.now }
{
    let mut low = 0;
    let mut high = nodes.len();
    while low < high {
        let middle = low + (high - low) / 2;
        if comes_before(nodes[middle].cell, cell) {
            low = middle + 1;
        } else {
            high = middle;
        }
    }
    low
}

/// Where the node of a cell stands, and the number of nodes where there is none. It takes as many steps as a search by
/// halves if the nodes stand level by level and by path in each, and looks at all of them otherwise.
pub(crate) fn place_of(nodes: &[NodePlace], cell: Cell) -> usize
    requires { HaveOwnCells nodes.now }
    ensures { result ≡ node_at nodes.now cell }
{
    let likely = guess(nodes, cell);
    if likely < nodes.len() && nodes[likely].cell == cell {
        return likely;
    }
    for i in 0..nodes.len() {
        if nodes[i].cell == cell {
            return i;
        }
    }
    nodes.len()
}
