//! Plans of new images.

ghost use Rattle.std.specs.Prelude.{◌≡◌};
ghost use Rattle.act_image.specs.Words.{as_row};

use crate::chains::{Body, ChainPlace, ChainRow, Chains};
use crate::fits::fits;
use crate::kept::KeptChains;
use crate::lists::{ListRow, ListWord};
use crate::nodes::NodePlace;
use crate::path::Path;
use crate::slots::{Slot, count_new, put_rows};
use crate::spots::Spots;
use crate::walk::Nodes;
use act_entry::{Entry, Ref, chain, encode, pack};
use act_grid::NoMemory;
use std::alloc::Global;
use std::marker::Model;

/// What shall stand in the rows of a new image. It holds the words of the new rows alone.
#[derive(Drop)]
pub struct Plan {
    pub(crate) nodes: Vec<NodePlace>,
    // How many child nodes each node has.
    pub(crate) under: Vec<u32>,
    // How many list rows there are.
    pub(crate) list_rows: u32,
    pub(crate) chains: Vec<ChainPlace>,
    // What stands in the new rows of nodes, in those of lists and in those of chains.
    pub(crate) spots: Vec<Spots>,
    pub(crate) lists: Vec<ListRow>,
    pub(crate) bodies: Vec<Body>,
    pub(crate) chain_rows: Vec<ChainRow>,
    // All rows: those of nodes, then those of lists, then those of chains.
    pub(crate) slots: Vec<Slot>,
    // The numbers of all rows, and of the new ones, as soon as the plan is bound.
    pub(crate) all: Vec<u32>,
    pub(crate) rows: Vec<u32>,
    pub(crate) gone: Vec<u32>,
}

impl Model for Plan {
    ghost use Rattle.std.specs.Prelude.{length, slice_index};
    ghost use Rattle.act_image.specs.Slots.{IsLaidOut};
    ghost use Rattle.act_image.specs.Pics.{Planned};

    ghost Value = { Planned };

    ghost view = { λ p. record {
      need = length p.rows.items;
      root = slice_index p.all.items 0;
      nodes = p.nodes.items;
      under = p.under.items;
      list_rows = p.list_rows;
      spots = p.spots.items;
      lists = p.lists.items;
      chains = p.chains.items;
      bodies = p.bodies.items;
      chain_rows = p.chain_rows.items;
      slots = p.slots.items;
      all = p.all.items;
      rows = p.rows.items;
      gone = p.gone.items;
    } };

    ghost invariant = { λ p. IsLaidOut p.slots.items p.all.items p.rows.items };
}

// A row number that may stand in a word; row 1 stands for any other.
#[inline]
fn row_in(row: u32) -> u32
    ensures { result ≡ as_row row }
{
    if 0 < row && row < 1 << 24 { row } else { 1 }
}

impl Plan {
    ghost use Rattle.std.specs.Prelude.{◌≡◌, ◌+◌, ◌<◌, ◌^◌, [], IfOk, length, slice_index, slice_index_or};
    ghost use Rattle.act_entry.specs.Entries.{IsEntry, entry_word};
    ghost use Rattle.act_entry.specs.References.{IsRow};
    ghost use Rattle.act_image.specs.Words.{chain_head, chain_word, entry_in, no_chain, no_row, placed_entry, placed_ref, placed_word};
    ghost use Rattle.act_grid.specs.declared.Settings.{Settings};
    ghost use Rattle.act_super.specs.declared.entry.State.{State};
    ghost use Rattle.act_image.specs.Pics.{IsBound, IsFresh, IsPlan, Pic, numbers_of, planned_word, with_numbers};
    ghost use Rattle.act_image.specs.Made.{IsKeptMade, IsMade};

    /// A plan of these nodes and chains and so many list rows, whose rows stay or come as the slots say.
    pub(crate) fn from_parts(
        alloc: Global,
        nodes: Nodes,
        list_rows: u32,
        chains: Chains,
        slots: Vec<Slot>,
        gone: Vec<u32>,
    ) -> Result<Plan, NoMemory>
        requires { length slots.items < 2 ^ 32 }
        ensures { IfOk result (IsMade nodes list_rows chains slots.items gone.items) }
    {
        let all = Vec::from_elem(alloc, 0u32, slots.len())?;
        let rows = Vec::from_elem(alloc, 0u32, count_new(slots.as_slice()))?;
        Ok(Plan {
            nodes: nodes.places,
            under: nodes.under,
            list_rows,
            chains: chains.places,
            spots: nodes.spots,
            lists: nodes.lists,
            bodies: chains.bodies,
            chain_rows: chains.rows,
            slots,
            all,
            rows,
            gone,
        })
    }

    /// A plan of what a path keeps and makes.
    pub(crate) fn from_path(
        alloc: Global,
        path: Path,
        chains: KeptChains,
        bodies: Vec<Body>,
        gone: Vec<u32>,
    ) -> Result<Plan, NoMemory>
        ensures { IfOk result (IsKeptMade path chains bodies.items gone.items) }
    {
        let Path {
            cells,
            places,
            under,
            node_slots,
            mut list_slots,
            spots,
            lists,
            ..
        } = path;
        let KeptChains {
            places: chain_places,
            slots: mut chain_slots,
            rows,
            ..
        } = chains;
        let list_rows = fits(list_slots.len())?;
        let mut slots = node_slots;
        slots.append(&mut list_slots)?;
        slots.append(&mut chain_slots)?;
        let _many = fits(slots.len())?;
        let nodes = Nodes {
            cells,
            places,
            under,
            spots,
            lists,
        };
        let chains = Chains {
            places: chain_places,
            bodies,
            rows,
        };
        let plan = Plan::from_parts(alloc, nodes, list_rows, chains, slots, gone)?;
        Ok(plan)
    }

    /// How many new rows the new image has.
    pub fn need(&self) -> u32
        ensures { result ≡ self.now.need }
    {
        self.rows.len() as u32
    }

    /// Gives the new rows their numbers. It takes no memory.
    pub fn bind(&mut self, rows: &[u32])
        requires { length rows.now ≡ self.old.need }
        ensures bound { (settings : Settings) (p : Pic) (state new : State) → IsPlan settings p self.old state new → IsFresh p rows.now → IsBound settings p self.new state new }
        ensures rows { self.new.rows ≡ rows.now }
        ensures given { self.new ≡ with_numbers self.old rows.now }
    {
        put_rows(&mut self.all, self.slots.as_slice(), rows);
        self.rows.as_mut_slice().copy_from_slice(rows);
    }

    /// The row of the root node.
    pub fn root(&self) -> u32
        ensures { result ≡ self.now.root }
    {
        if self.all.is_empty() { 0 } else { self.all[0] }
    }

    /// The number of a new row, counted from 0.
    pub fn row(&self, i: u32) -> u32
        requires { i < self.now.need }
        ensures { result ≡ slice_index self.now.rows i }
    {
        self.rows[i as usize]
    }

    /// The word of a new row, counted from 0, at a place. It looks at the leaves of one node at most.
    pub fn word(&self, i: u32, place: u8) -> u64
        requires { i < self.now.need }
        ensures { result ≡ planned_word self.now i place }
    {
        let k = i as usize;
        let nodes = self.spots.len();
        let lists = self.lists.len();
        if k < nodes {
            self.node_word(k, place)
        } else if k < nodes + lists {
            self.list_word(k - nodes, place)
        } else {
            self.chain_word(k - nodes - lists, place)
        }
    }

    // The number of a row, by where it stands among all rows.
    fn number(&self, k: usize) -> u32
        ensures is { result ≡ as_row (slice_index self.now.all k) }
        ensures row { IsRow result }
    {
        if k < self.all.len() {
            row_in(self.all[k])
        } else {
            1
        }
    }

    // How many rows stand before those of chains.
    fn chains_from(&self) -> usize
        ensures is { result ≡ length self.now.nodes + self.now.list_rows }
        ensures low { result < 2 ^ 63 + 2 ^ 32 }
    {
        self.nodes.len() + self.list_rows as usize
    }

    fn placed_ref(&self, r: Ref) -> Ref
        ensures is { result ≡ placed_ref (numbers_of self.now) r }
        ensures row { IsRow result.row }
    {
        let row = self.number(self.chains_from() + r.row as usize);
        Ref { row, hit: r.hit }
    }

    fn placed_entry(&self, e: Entry) -> Entry
        ensures is { result ≡ placed_entry (numbers_of self.now) e }
        ensures entry { IsEntry result }
    {
        match e {
            Entry::Empty => Entry::Empty,
            Entry::Child(k) => Entry::Child(self.number(k as usize)),
            Entry::One(r) => Entry::One(self.placed_ref(r)),
            Entry::Two(a, b) => Entry::Two(self.placed_ref(a), self.placed_ref(b)),
            Entry::Table { row, place } => Entry::Table {
                row: self.number(self.nodes.len() + row as usize),
                place: place.min(253),
            },
        }
    }

    fn node_word(&self, k: usize, place: u8) -> u64
        requires { k < length self.now.spots }
        ensures { result ≡ entry_word (placed_entry (numbers_of self.now) (entry_in (slice_index_or self.now.spots k []) place)) }
    {
        let entry = self.placed_entry(self.spots[k].entry(place));
        encode(&entry)
    }

    fn list_word(&self, k: usize, place: u8) -> u64
        requires { k < length self.now.lists }
        ensures { result ≡ placed_word (numbers_of self.now) (slice_index_or (slice_index_or self.now.lists k []) place (ListWord.Count 0)) }
    {
        match self.lists[k].word(place) {
            ListWord::Count(count) => u64::from(count),
            ListWord::Pair(a, b) => self.pair_word(a, b),
        }
    }

    fn pair_word(&self, a: Ref, b: Option<Ref>) -> u64
        ensures { result ≡ placed_word (numbers_of self.now) (ListWord.Pair a b) }
    {
        let a = self.placed_ref(a);
        match b {
            None => pack(a, None),
            Some(b) => pack(a, Some(self.placed_ref(b))),
        }
    }

    fn chain_word(&self, k: usize, place: u8) -> u64
        ensures { let r = slice_index_or self.now.chain_rows k no_row in result ≡ chain_word (numbers_of self.now) (slice_index_or self.now.chains r.chain no_chain) (slice_index_or self.now.bodies r.body []) r.row place }
    {
        let r = self.chain_row(k);
        if place == 0 {
            self.chain_head(self.chain(r.chain), r.row)
        } else {
            self.body_word(r.body, r.row as usize * 255 + (place as usize - 1))
        }
    }

    fn chain_row(&self, k: usize) -> ChainRow
        ensures { result ≡ slice_index_or self.now.chain_rows k no_row }
    {
        if k < self.chain_rows.len() {
            self.chain_rows[k]
        } else {
            ChainRow {
                chain: 0,
                body: 0,
                row: 0,
            }
        }
    }

    // The first word of a row of a chain.
    fn chain_head(&self, at: ChainPlace, row: u32) -> u64
        ensures { result ≡ chain_head (numbers_of self.now) at row }
    {
        let after = row as usize + 1;
        let next = if after < at.count as usize {
            self.number(self.chains_from() + (at.first as usize + after))
        } else {
            0
        };
        chain(next, if row == 0 { at.key } else { 0 })
    }

    fn chain(&self, i: u32) -> ChainPlace
        ensures { result ≡ slice_index_or self.now.chains i no_chain }
    {
        if (i as usize) < self.chains.len() {
            self.chains[i as usize]
        } else {
            ChainPlace {
                key: 0,
                first: 0,
                count: 0,
            }
        }
    }

    fn body_word(&self, i: u32, k: usize) -> u64
        ensures { result ≡ slice_index (slice_index_or self.now.bodies i []) k }
    {
        if (i as usize) < self.bodies.len() {
            self.bodies[i as usize].word(k)
        } else {
            0
        }
    }

    /// The rows of the old image that the new one lacks.
    pub fn gone(&self) -> &[u32]
        ensures { result.now ≡ self.now.gone }
    {
        &self.gone
    }
}
