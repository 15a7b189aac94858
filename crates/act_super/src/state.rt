//! The state of the index.

ghost use Rattle.std.specs.Prelude.{◌≡◌};
ghost use Rattle.act_super.specs.declared.verdict.Verdict.TheVariants.{NoMemory as Unfed};

use crate::blocks::Blocks;
use crate::chosen::chosen_in;
use crate::fit::{fit_in, longest, sure_count};
use crate::gather::gathered;
use crate::marks::Marks;
use crate::next::{Change, Next};
use crate::node::Node;
use crate::refs::{ZoneRefs, push_refs};
use crate::room::room_in;
use crate::same::same;
use crate::search::place;
use crate::standing::Standing;
use crate::verdict::{TurnedAdd, Verdict};
use act_cover::Cells;
use act_geom::{Class, Shape};
use act_grid::{Cell, NoMemory, Point, Settings};
use std::alloc::Global;
use std::marker::Model;

/// How many zones may stand. One more is answered as want of memory.
const MOST_ZONES: usize = 0xFFFF_FFFF;

/// The zones that stand, with the settings. Contracts see the state of the definitions.
#[derive(Drop)]
pub struct Super {
    pub(crate) settings: Settings,
    // The keys in ascending order, and beside each its shape with what is kept of it.
    pub(crate) keys: Vec<u32>,
    pub(crate) standings: Vec<Standing>,
    pub(crate) marks: Marks,
    // The Size of the state, and what it is with no trained cell.
    size: u64,
    plain: u64,
}

impl Model for Super {
    ghost use Rattle.std.specs.Prelude.{◌-◌, min, vec_len, vec_capacity};
    ghost use Rattle.act_super.specs.States.{Plain};
    ghost use Rattle.act_super.specs.Places.{zones_with};
    ghost use Rattle.act_super.specs.Sound.{IsSound};
    ghost use Rattle.act_super.specs.Standings.{shapes_in};

    ghost Value = { Plain };

    ghost view = { λ s. record { settings = s.settings; state = record { zones = zones_with s.keys.items (shapes_in s.standings.items); trained = s.marks }; spare = min (min (vec_capacity s.keys) (vec_capacity s.standings)) 4294967295 - vec_len s.keys } };

    ghost invariant = { λ s. IsSound s.settings s.keys.items s.standings.items s.marks s.size s.plain };
}

/// Want of memory, with the shape.
fn unfed(shape: Shape) -> TurnedAdd
    ensures { (result.shape ≡ shape) × (result.why ≡ Unfed) }
{
    TurnedAdd {
        why: Verdict::NoMemory,
        shape,
    }
}

impl Super {
    ghost use Rattle.std.specs.Prelude.{◌≡◌, ◌⊎◌, ◌<◌, ◌≤◌, ◌++◌, IfOk, IfErr, Some, drop, length, map, slice_index_or, slice_get};
    ghost use Rattle.act_cover.specs.Covering.{class_at};
    ghost use Rattle.act_cover.specs.Level.{level_of};
    ghost use Rattle.act_geom.specs.Inside.{is_inside};
    ghost use Rattle.act_super.specs.Nodes.{node_children, node_leaves};
    ghost use Rattle.act_super.specs.Sizes.{leaf_of, refs_of, size_of};
    ghost use Rattle.act_super.specs.States.{IsFor, after, needs, nothing, verdict_of, zone_key_at, zone_shape_at};
    ghost use Rattle.act_super.specs.Training.{chosen_of, fit, trained_more};
    ghost use Rattle.act_super.specs.declared.entry.Entry.TheVariants.{Add, DropZone, Replace, Train};

    /// No zones under these settings.
    pub fn new(alloc: Global, settings: Settings) -> Super
        ensures { (result.settings ≡ settings) × (result.state ≡ nothing) }
    {
        Super {
            settings,
            keys: Vec::new(alloc),
            standings: Vec::new(alloc),
            marks: Marks::new(alloc),
            size: 1,
            plain: 1,
        }
    }

    /// Prepares to add a zone. It takes the memory that `commit` needs, and leaves the state.
    pub fn prepare_add(&mut self, alloc: Global, key: u32, shape: Shape) -> Result<Next, TurnedAdd>
        ensures ok { IfOk result (λ next. (next.entry ≡ Add key shape) × IsFor self.old.settings self.old.state next × (needs next.entry ≤ self.new.spare)) }
        ensures err { IfErr result (λ turned. (turned.shape ≡ shape) × ((turned.why ≡ Unfed) ⊎ (verdict_of self.old.settings self.old.state (Add key shape) ≡ Some turned.why))) }
        ensures same { (self.new.settings ≡ self.old.settings) × (self.new.state ≡ self.old.state) }
    {
        let Err(at) = place(&self.keys, key) else {
            return Err(TurnedAdd {
                why: Verdict::Duplicate,
                shape,
            });
        };
        if self.keys.len() >= MOST_ZONES {
            return Err(unfed(shape));
        }
        let Ok(()) = self.keys.reserve(1) else {
            return Err(unfed(shape));
        };
        let Ok(()) = self.standings.reserve(1) else {
            return Err(unfed(shape));
        };
        let Ok(blocks) = Blocks::of(alloc, &shape) else {
            return Err(unfed(shape));
        };
        let cells = self.settings.cells;
        let zone = Standing::new(shape, blocks, cells);
        let room = room_in(
            alloc,
            &self.standings,
            at,
            Some(&zone),
            at,
            self.plain,
            self.settings.rows,
        );
        let plain = match room {
            Ok(plain) => plain,
            Err(why) => {
                return Err(TurnedAdd {
                    why,
                    shape: zone.shape,
                });
            }
        };
        let fitted = fit_in(
            alloc,
            &self.standings,
            at,
            Some(&zone),
            at,
            &self.marks,
            self.size,
            plain,
            self.settings.rows,
        );
        let Ok(fitted) = fitted else {
            return Err(unfed(zone.shape));
        };
        let size = fitted.rows;
        Ok(Next {
            change: Change::Add(key, zone),
            marks: fitted.marks,
            size,
            plain,
            cells,
        })
    }

    /// Prepares to drop a zone. It leaves the state.
    pub fn prepare_drop(&mut self, alloc: Global, key: u32) -> Result<Next, Verdict>
        ensures ok { IfOk result (λ next. (next.entry ≡ DropZone key) × IsFor self.old.settings self.old.state next × (needs next.entry ≤ self.new.spare)) }
        ensures err { IfErr result (λ why. (why ≡ Unfed) ⊎ (verdict_of self.old.settings self.old.state (DropZone key) ≡ Some why)) }
        ensures same { (self.new.settings ≡ self.old.settings) × (self.new.state ≡ self.old.state) }
    {
        let Ok(at) = place(&self.keys, key) else {
            return Err(Verdict::Unknown);
        };
        let old = self.plain;
        let limit = self.settings.rows;
        let plain = room_in(alloc, &self.standings, at, None, at + 1, old, limit)?;
        let fitted = fit_in(
            alloc,
            &self.standings,
            at,
            None,
            at + 1,
            &self.marks,
            self.size,
            plain,
            self.settings.rows,
        );
        let Ok(fitted) = fitted else {
            return Err(Verdict::NoMemory);
        };
        let size = fitted.rows;
        Ok(Next {
            change: Change::DropZone(key),
            marks: fitted.marks,
            size,
            plain,
            cells: self.settings.cells,
        })
    }

    /// Prepares to give a standing zone another shape. It leaves the state.
    pub fn prepare_replace(
        &mut self,
        alloc: Global,
        key: u32,
        shape: Shape,
    ) -> Result<Next, TurnedAdd>
        ensures ok { IfOk result (λ next. (next.entry ≡ Replace key shape) × IsFor self.old.settings self.old.state next × (needs next.entry ≤ self.new.spare)) }
        ensures err { IfErr result (λ turned. (turned.shape ≡ shape) × ((turned.why ≡ Unfed) ⊎ (verdict_of self.old.settings self.old.state (Replace key shape) ≡ Some turned.why))) }
        ensures same { (self.new.settings ≡ self.old.settings) × (self.new.state ≡ self.old.state) }
    {
        let Ok(at) = place(&self.keys, key) else {
            return Err(TurnedAdd {
                why: Verdict::Unknown,
                shape,
            });
        };
        if same(&self.standings[at].shape, &shape) {
            return Err(TurnedAdd {
                why: Verdict::Same,
                shape,
            });
        }
        let Ok(blocks) = Blocks::of(alloc, &shape) else {
            return Err(unfed(shape));
        };
        let cells = self.settings.cells;
        let zone = Standing::new(shape, blocks, cells);
        let room = room_in(
            alloc,
            &self.standings,
            at,
            Some(&zone),
            at + 1,
            self.plain,
            self.settings.rows,
        );
        let plain = match room {
            Ok(plain) => plain,
            Err(why) => {
                return Err(TurnedAdd {
                    why,
                    shape: zone.shape,
                });
            }
        };
        let fitted = fit_in(
            alloc,
            &self.standings,
            at,
            Some(&zone),
            at + 1,
            &self.marks,
            self.size,
            plain,
            self.settings.rows,
        );
        let Ok(fitted) = fitted else {
            return Err(unfed(zone.shape));
        };
        let size = fitted.rows;
        Ok(Next {
            change: Change::Replace(key, zone),
            marks: fitted.marks,
            size,
            plain,
            cells,
        })
    }

    /// Prepares to train the first of these cells that fit. It leaves the state.
    pub(crate) fn train_with(&mut self, alloc: Global, cells: Vec<Cell>) -> Result<Next, NoMemory>
        ensures ok { IfOk result (λ next. (next.entry ≡ Train (drop (length self.old.state.trained) (fit self.old.settings self.old.state.zones (self.old.state.trained ++ cells.items)))) × IsFor self.old.settings self.old.state next × (needs next.entry ≤ self.new.spare)) }
        ensures same { (self.new.settings ≡ self.old.settings) × (self.new.state ≡ self.old.state) }
    {
        let limit = self.settings.rows;
        let mut all = Vec::new(alloc);
        all.extend_from_slice(self.marks.as_slice())?;
        let known = all.len();
        all.extend_from_slice(&cells)?;
        let last = self.standings.len();
        let zones = gathered(alloc, &self.standings, last, None, last)?;
        let sure = sure_count(self.plain, limit, all.len()).max(known);
        let fitted = longest(alloc, zones.as_slice(), &all, sure, limit)?;
        let size = fitted.rows;
        Ok(Next {
            change: Change::Train(known),
            marks: fitted.marks,
            size,
            plain: self.plain,
            cells: self.settings.cells,
        })
    }

    /// Prepares to train with a sample and a threshold: the cells that `chosen` answers are appended to the trained list
    /// as far as they fit. It leaves the state.
    pub fn prepare_train(
        &mut self,
        alloc: Global,
        sample: &[Point],
        threshold: u32,
    ) -> Result<Next, NoMemory>
        requires threshold { 1 ≤ threshold }
        requires few { length sample.now ≤ 65536 }
        ensures ok { IfOk result (λ next. (next.entry ≡ Train (trained_more self.old.settings self.old.state sample.now threshold)) × IsFor self.old.settings self.old.state next × (needs next.entry ≤ self.new.spare)) }
        ensures same { (self.new.settings ≡ self.old.settings) × (self.new.state ≡ self.old.state) }
    {
        let cells = self.chosen(alloc, sample, threshold)?;
        self.train_with(alloc, cells.into_vec())
    }

    /// Makes a change that was prepared on this state. It takes no memory.
    pub fn commit(&mut self, next: Next)
        requires prepared { IsFor self.old.settings self.old.state next }
        requires room { needs next.entry ≤ self.old.spare }
        ensures { (self.new.settings ≡ self.old.settings) × (self.new.state ≡ after self.old.settings self.old.state next.entry) }
    {
        let size = next.size;
        let plain = next.plain;
        let marks = next.marks;
        match next.change {
            Change::Add(key, zone) => self.put(key, zone, marks, size, plain),
            Change::DropZone(key) => self.remove(key, marks, size, plain),
            Change::Replace(key, zone) => self.reshape(key, zone, marks, size, plain),
            Change::Train(from) => self.train(from, marks, size, plain),
        }
    }

    fn put(&mut self, key: u32, zone: Standing, marks: Marks, size: u64, plain: u64)
        requires prepared { IsFor self.old.settings self.old.state (record { entry = Add key zone.shape; trained = marks; size = size; plain = plain; cells = self.old.settings.cells }) }
        requires level { zone.level ≡ level_of zone.shape self.old.settings.cells }
        requires room { 1 ≤ self.old.spare }
        ensures { (self.new.settings ≡ self.old.settings) × (self.new.state ≡ after self.old.settings self.old.state (Add key zone.shape)) }
    {
        let Err(at) = place(&self.keys, key) else {
            unreachable!()
        };
        let Ok(()) = self.keys.insert(at, key) else {
            unreachable!()
        };
        let Ok(()) = self.standings.insert(at, zone) else {
            unreachable!()
        };
        self.marks = marks;
        self.size = size;
        self.plain = plain;
    }

    fn remove(&mut self, key: u32, marks: Marks, size: u64, plain: u64)
        requires { IsFor self.old.settings self.old.state (record { entry = DropZone key; trained = marks; size = size; plain = plain; cells = self.old.settings.cells }) }
        ensures { (self.new.settings ≡ self.old.settings) × (self.new.state ≡ after self.old.settings self.old.state (DropZone key)) }
    {
        let Ok(at) = place(&self.keys, key) else {
            unreachable!()
        };
        self.keys.remove(at);
        self.standings.remove(at);
        self.marks = marks;
        self.size = size;
        self.plain = plain;
    }

    fn reshape(&mut self, key: u32, zone: Standing, marks: Marks, size: u64, plain: u64)
        requires prepared { IsFor self.old.settings self.old.state (record { entry = Replace key zone.shape; trained = marks; size = size; plain = plain; cells = self.old.settings.cells }) }
        requires level { zone.level ≡ level_of zone.shape self.old.settings.cells }
        ensures { (self.new.settings ≡ self.old.settings) × (self.new.state ≡ after self.old.settings self.old.state (Replace key zone.shape)) }
    {
        let Ok(at) = place(&self.keys, key) else {
            unreachable!()
        };
        self.standings[at] = zone;
        self.marks = marks;
        self.size = size;
        self.plain = plain;
    }

    fn train(&mut self, _from: usize, marks: Marks, size: u64, plain: u64)
        requires { IsFor self.old.settings self.old.state (record { entry = Train (drop _from marks); trained = marks; size = size; plain = plain; cells = self.old.settings.cells }) }
        ensures { (self.new.settings ≡ self.old.settings) × (self.new.state ≡ after self.old.settings self.old.state (Train (drop _from marks))) }
    {
        self.marks = marks;
        self.size = size;
        self.plain = plain;
    }

    /// The Size of the state: the rows of its nodes, of their lists and of the chains of its zones.
    pub fn size(&self) -> u64
        ensures { result ≡ size_of self.now.settings self.now.state }
    {
        self.size
    }

    /// The leaf that holds the point. On each level down to it it looks at each zone once, and it takes no memory.
    pub fn leaf(&self, p: Point) -> Cell
        ensures { result ≡ leaf_of self.now.settings self.now.state p }
    {
        self.leaf_trained(&self.marks, p)
    }

    /// The references of a leaf, by ascending key: a reference to each zone that isn't Outside on it. It looks at each
    /// zone once.
    pub fn refs(&self, alloc: Global, cell: Cell) -> Result<ZoneRefs, NoMemory>
        ensures { IfOk result (λ refs. refs ≡ refs_of self.now.state.zones cell) }
    {
        let mut refs = Vec::new(alloc);
        push_refs(&mut refs, &self.keys, &self.standings, cell)?;
        Ok(ZoneRefs::from_vec(refs))
    }

    /// The leaves of a node with the cells of its child nodes, in Z order, and the references of each leaf. A node belongs
    /// to each reached split cell of level 0, 4, .., 24, and to the root. It looks at all zones once, and then at those on
    /// each cell of the node.
    pub fn node(&self, alloc: Global, cell: Cell) -> Result<Node, NoMemory>
        requires { cell.level ≤ 24 }
        ensures leaves { IfOk result (λ node. node.leaves ≡ node_leaves self.now.settings self.now.state cell) }
        ensures children { IfOk result (λ node. node.children ≡ node_children self.now.settings self.now.state cell) }
        ensures refs { IfOk result (λ node. node.refs.items ≡ map (refs_of self.now.state.zones) node.leaves) }
    {
        let node = self.node_trained(alloc, &self.marks, cell)?;
        Ok(node)
    }

    /// The cells that a training with the sample chooses: the leaves above level 28 whose cost, their sample points times
    /// the zones that are Mixed on them, is at least the threshold, by descending cost and then by ascending id. It sorts
    /// the sample, looks at all zones once, and then at those on each reached cell that holds a sample point.
    pub fn chosen(&self, alloc: Global, sample: &[Point], threshold: u32) -> Result<Cells, NoMemory>
        requires threshold { 1 ≤ threshold }
        requires few { length sample.now ≤ 65536 }
        ensures { IfOk result (λ cells. cells ≡ chosen_of self.now.settings self.now.state sample.now threshold) }
    {
        let cells = chosen_in(alloc, &self.standings, &self.marks, sample, threshold)?;
        Ok(Cells::from_vec(cells))
    }

    /// The trained cells, in the order of their training.
    pub fn trained(&self) -> &[Cell]
        ensures { result.now ≡ self.now.state.trained }
    {
        self.marks.as_slice()
    }

    /// How many zones stand.
    pub fn zones(&self) -> u32
        ensures { result ≡ length self.now.state.zones }
    {
        self.keys.len() as u32
    }

    /// The key of a zone, counted from 0 by ascending key.
    pub fn zone_key(&self, i: u32) -> u32
        requires { i < length self.now.state.zones }
        ensures { result ≡ zone_key_at self.now.state.zones i }
    {
        self.keys[i as usize]
    }

    /// The shape of a zone, counted from 0 by ascending key.
    pub fn zone_shape(&self, i: u32) -> &Shape
        requires { i < length self.now.state.zones }
        ensures { result.now ≡ zone_shape_at self.now.state.zones i }
    {
        &self.standings[i as usize].shape
    }

    /// How the shape of a zone, counted from 0 by ascending key, lies on the cell. A cell apart from the zone's box or
    /// around it takes constant time.
    pub fn zone_class(&self, i: u32, cell: Cell) -> Class
        requires { i < length self.now.state.zones }
        ensures { result ≡ class_at (zone_shape_at self.now.state.zones i) cell }
    {
        self.standings[i as usize].class_on(cell, cell.hull())
    }

    /// Whether the point is inside the shape of a zone, counted from 0 by ascending key. A point outside
    /// of the zone's box takes constant time.
    #[inline]
    pub fn zone_contains(&self, i: u32, p: Point) -> bool
        requires { i < length self.now.state.zones }
        ensures { result ≡ is_inside (zone_shape_at self.now.state.zones i) p }
    {
        self.standings[i as usize].contains(p)
    }
}
