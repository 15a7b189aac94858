//! The plain copy of the shared rows.

use crate::after::{chains_after, change_is_sound};
use crate::chains::{ChainPlace, changed_bodies};
use crate::fits::fits;
use crate::gone::gone_rows;
use crate::kept::{OldChains, kept_chains};
use crate::nodes::NodePlace;
use crate::old::Old;
use crate::path::walk_path;
use crate::plan::Plan;
use crate::slots::Slot;
use crate::turned::Turned;
use crate::walk::Nodes;
use act_grid::{Cell, NoMemory};
use act_super::{Next, Super};
use std::alloc::Global;
use std::marker::Model;

/// Which rows serve for what in the current version.
#[derive(Drop)]
pub struct Image {
    nodes: Vec<NodePlace>,
    // How many child nodes each node has.
    under: Vec<u32>,
    // How many list rows there are.
    lists: u32,
    chains: Vec<ChainPlace>,
    // The rows of nodes, then those of lists, then those of chains.
    rows: Vec<u32>,
}

impl Model for Image {
    ghost use Rattle.std.specs.Prelude.{slice_index};
    ghost use Rattle.act_image.specs.Pics.{Pic};

    ghost Value = { Pic };

    ghost view = { λ i. record { root = slice_index i.rows.items 0; nodes = i.nodes.items; under = i.under.items; lists = i.lists; chains = i.chains.items; rows = i.rows.items } };
}

impl Image {
    ghost use Rattle.std.specs.Prelude.{◌≡◌, ◌≤◌, IfOk};
    ghost use Rattle.act_grid.specs.declared.Settings.{Settings};
    ghost use Rattle.act_base.specs.Sight.{Sight};
    ghost use Rattle.act_super.specs.declared.entry.State.{State};
    ghost use Rattle.act_super.specs.Sizes.{size_of};
    ghost use Rattle.act_super.specs.States.{IsFor, after};
    ghost use Rattle.act_image.specs.Fresh.{fresh_rows};
    ghost use Rattle.act_image.specs.Pics.{IsBound, IsPlan, Opens, Shows, installed};

    /// The image of no zones: row 1, a node of 256 empty entries.
    pub fn new(alloc: Global) -> Result<Image, NoMemory>
        ensures { IfOk result Opens }
    {
        let mut nodes = Vec::new(alloc);
        nodes.push(NodePlace {
            cell: Cell::root(),
            first: 0,
            count: 0,
        })?;
        let mut under = Vec::new(alloc);
        under.push(0)?;
        let mut rows = Vec::new(alloc);
        rows.push(1)?;
        Ok(Image {
            nodes,
            under,
            lists: 0,
            chains: Vec::new(alloc),
            rows,
        })
    }

    /// A plan of all rows anew of the state after the change, which takes none of the rows of this image. It asks once for
    /// each node and each leaf.
    pub fn plan_whole(&self, alloc: Global, state: &Super, next: &Next) -> Result<Plan, NoMemory>
        requires stands { (x : Sight) × Shows state.now.settings self.now x state.now.state }
        requires next { IsFor state.now.settings state.now.state next.now }
        ensures { IfOk result (λ plan. IsPlan state.now.settings self.now plan state.now.state (after state.now.settings state.now.state next.now.entry) × (plan.need ≡ next.now.size)) }
    {
        change_is_sound(next);
        let chains = chains_after(alloc, state, next)?;
        let nodes = Nodes::walk(alloc, state, next, &chains)?;
        let lists = fits(nodes.lists.len())?;
        let count = fits(nodes.spots.len())? + lists + fits(chains.rows.len())?;
        let slots = Vec::from_elem(alloc, Slot::New, count as usize)?;
        let gone = Vec::from_slice(alloc, self.rows.as_slice())?;
        let plan = Plan::from_parts(alloc, nodes, lists, chains, slots, gone)?;
        Ok(plan)
    }

    /// A plan of the state after the change that keeps the rows of all that the change leaves: of each node whose branch is
    /// the same as before, with its lists, and of the chains of all other zones. It asks for the nodes that the change
    /// touches, and takes a few steps for each other node, list row and chain row.
    pub fn plan_path(&self, alloc: Global, state: &Super, next: &Next) -> Result<Plan, NoMemory>
        requires stands { (x : Sight) × Shows state.now.settings self.now x state.now.state }
        requires next { IsFor state.now.settings state.now.state next.now }
        ensures { let new = after state.now.settings state.now.state next.now.entry in IfOk result (λ plan. IsPlan state.now.settings self.now plan state.now.state new × ((plan.need ≤ size_of state.now.settings new) × (plan.need ≤ fresh_rows state.now.settings state.now.state next.now.entry))) }
    {
        change_is_sound(next);
        let old = Old {
            nodes: self.nodes.as_slice(),
            under: self.under.as_slice(),
            rows: self.rows.as_slice(),
        };
        let before = OldChains {
            places: self.chains.as_slice(),
            rows: self.rows.as_slice(),
            from: self.nodes.len() + self.lists as usize,
        };
        let turned = Turned::find(alloc, state, next)?;
        let chains = kept_chains(alloc, state, next, before)?;
        let path = walk_path(alloc, state, next, chains.places.as_slice(), &turned, old)?;
        let gone = gone_rows(alloc, old, before, path.stays.as_slice(), next)?;
        let bodies = changed_bodies(alloc, next)?;
        let plan = Plan::from_path(alloc, path, chains, bodies, gone)?;
        Ok(plan)
    }

    /// Makes this image the new one of a plan that was made on it and has its rows. It takes no memory.
    pub fn install(&mut self, plan: Plan)
        requires { (settings : Settings) × (state : State) × (new : State) × IsBound settings self.old plan state new }
        ensures { self.new ≡ installed self.old plan }
    {
        let Plan {
            nodes,
            under,
            list_rows,
            chains,
            all,
            ..
        } = plan;
        self.lists = list_rows;
        self.nodes = nodes;
        self.under = under;
        self.chains = chains;
        self.rows = all;
    }
}
