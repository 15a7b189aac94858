//! Points of images that plans make, as act_probe finds them.

ghost use Rattle.std.specs.Prelude.{◌≡◌, ◌<◌, ◌≤◌, ◌^◌, IfOk, length};
ghost use Rattle.act_base.specs.Counting.{from};
ghost use Rattle.act_grid.specs.declared.Settings.{Settings as Limits};
ghost use Rattle.act_super.specs.declared.entry.State.{State};
ghost use Rattle.act_base.specs.Sight.{Sight};
ghost use Rattle.act_super.specs.States.{IsFor, after, needs, nothing};
ghost use Rattle.act_super.specs.Stands.{Stands};
ghost use Rattle.act_image.specs.Pics.{Shows, empty_sight, renewed, row_at};

use crate::{Image, Plan};
use act_base::Steps;
use act_geom::Shape;
use act_grid::{Layers, NoMemory, Point, Settings};
use act_probe::{Keys, Words, probe};
use act_super::{Next, Super};
use std::alloc::{AllocError, Global};
use std::marker::Brand;
use std::sync::ledger::{Blank, Ledger};
use std::test::Fail;

/// The words of the first image of a plan that has its rows.
#[derive(Drop)]
struct Stored {
    plan: Plan,
}

impl Words for Stored {
    ghost image = { λ s. renewed empty_sight s.plan };

    fn word<L: Ledger>(&mut self, row: u32, place: u8, steps: &mut Steps<L>) -> u64 {
        steps.tick();
        let i = at(&self.plan, row);
        if (i as usize) < self.plan.rows.len() {
            self.plan.word(i, place)
        } else {
            0
        }
    }
}

// Where a row stands among the new ones, and their number where it isn't new.
fn at(plan: &Plan, row: u32) -> u32
    ensures { result ≡ row_at plan.now.rows row }
{
    for i in 0..plan.rows.len() {
        if plan.rows[i] == row {
            return i as u32;
        }
    }
    plan.rows.len() as u32
}

/// The numbers from 2 on.
fn numbers(alloc: Global, count: u32) -> Result<Vec<u32>, AllocError>
    requires { count ≤ 1000 }
    ensures { IfOk result (λ rows. rows.items ≡ from 2 count) }
{
    let mut rows = Vec::new(alloc);
    for i in 0..count {
        rows.push(2 + i)?;
    }
    Ok(rows)
}

/// The image of the state after a first change.
fn first_image(alloc: Global, state: &Super, next: &Next) -> Result<Stored, NoMemory>
    requires empty { state.now.state ≡ nothing }
    requires prepared { IsFor state.now.settings state.now.state next.now }
    ensures { IfOk result (λ s. Stands state.now.settings (renewed empty_sight s.plan) s.plan.root (after state.now.settings state.now.state next.now.entry)) }
{
    let image = Image::new(alloc)?;
    let mut plan = image.plan_whole(alloc, state, next)?;
    let need = plan.need();
    if need > 1000 {
        return Err(NoMemory);
    }
    let rows = numbers(alloc, need)?;
    plan.bind(rows.as_slice());
    Ok(Stored { plan })
}

/// The first zone that is found at a point, 0 for none, and how many words are read.
fn found<L: Ledger>(blank: Blank, words: &mut Stored, p: Point) -> (u32, u64)
    requires name { blank.name ≡ L.name }
    requires parts { (blank.parts ≡ L.parts) × (0 < L.parts) }
    requires stands { (settings : Limits) × (state : State) × Stands settings (renewed empty_sight words.old.plan) words.old.plan.root state }
    ensures { words.new ≡ words.old }
{
    let mut steps = Steps::<L>::new(blank);
    let mut keys = Keys::new();
    let root = words.plan.root();
    let reads = probe(words, root, p, Layers::all(), &mut keys, &mut steps);
    let key = if keys.len() == 0 { 0 } else { keys.get(0) };
    (key, reads)
}

/// The same with a count of its own.
fn look(words: &mut Stored, p: Point) -> (u32, u64)
    requires { (settings : Limits) × (state : State) × Stands settings (renewed empty_sight words.old.plan) words.old.plan.root state }
    ensures { words.new ≡ words.old }
{
    found::<Brand>(Blank::new(1), words, p)
}

#[test]
fn one_zone(rt: HostRuntime) -> Result<(), Fail> {
    let alloc = rt.alloc();
    let settings = Settings::new(0, 16_384, 64, 4).ok_or("limits")?;
    let mut state = Super::new(alloc, settings);
    let mut shape = Shape::new(alloc);
    let at = |x, y| Point { x, y };
    shape.push_ring(&[at(0, 0), at(10, 0), at(10, 10), at(0, 10)])?;
    let Ok(next) = state.prepare_add(alloc, 7, shape) else {
        return Err("turned away".into());
    };
    let mut words = first_image(alloc, &state, &next)?;
    assert_eq!(rt; u64::from(words.plan.need()), next.size());
    assert_eq!(rt; next.size(), 8);
    let (key, reads) = look(&mut words, Point { x: 9, y: 9 });
    assert_eq!(rt; key, 7);
    assert!(rt; reads <= 14);
    let (key, reads) = look(&mut words, Point { x: 10, y: 0 });
    assert_eq!(rt; key, 0);
    assert!(rt; reads <= 14);
    let (key, reads) = look(&mut words, Point { x: -1, y: 0 });
    assert_eq!(rt; (key, reads), (0, 1));
    Ok(())
}

/// How many rows a plan of all rows needs, and how many a plan of the path.
fn needed(alloc: Global, image: &Image, state: &Super, next: &Next) -> Result<(u32, u32), NoMemory>
    requires stands { (x : Sight) × Shows state.now.settings image.now x state.now.state }
    requires prepared { IsFor state.now.settings state.now.state next.now }
{
    let whole = image.plan_whole(alloc, state, next)?;
    let path = image.plan_path(alloc, state, next)?;
    Ok((whole.need(), path.need()))
}

/// The same of a first change.
fn first_needed(alloc: Global, state: &Super, next: &Next) -> Result<(u32, u32), NoMemory>
    requires empty { state.now.state ≡ nothing }
    requires prepared { IsFor state.now.settings state.now.state next.now }
{
    let image = Image::new(alloc)?;
    needed(alloc, &image, state, next)
}

/// The first of the new rows of a plan, and how many rows the new image lacks.
fn ends(plan: &Plan) -> (u32, usize) {
    let first = if plan.need() > 0 { plan.row(0) } else { 0 };
    (first, plan.gone().len())
}

/// The image of a first change by its path, its state, and the ends of the plan.
fn settled(alloc: Global, state: &mut Super, next: Next) -> Result<(Image, (u32, usize)), NoMemory>
    requires empty { state.old.state ≡ nothing }
    requires prepared { IsFor state.old.settings state.old.state next }
    requires room { needs next.entry ≤ state.old.spare }
    ensures state { state.new.settings ≡ state.old.settings }
    ensures image { IfOk result (λ r. (x : Sight) × Shows state.new.settings r.0 x state.new.state) }
{
    let mut image = Image::new(alloc)?;
    let mut plan = image.plan_path(alloc, state, &next)?;
    let need = plan.need();
    if need > 1000 {
        return Err(NoMemory);
    }
    let rows = numbers(alloc, need)?;
    plan.bind(rows.as_slice());
    let found = ends(&plan);
    image.install(plan);
    state.commit(next);
    Ok((image, found))
}

fn square(alloc: Global, low: i32, high: i32) -> Result<Shape, Fail> {
    let mut shape = Shape::new(alloc);
    let at = |x, y| Point { x, y };
    shape.push_ring(&[at(low, low), at(high, low), at(high, high), at(low, high)])?;
    Ok(shape)
}

#[test]
fn paths_of_changes(rt: HostRuntime) -> Result<(), Fail> {
    let alloc = rt.alloc();
    let settings = Settings::new(0, 16_384, 64, 4).ok_or("limits")?;
    let mut state = Super::new(alloc, settings);
    let Ok(next) = state.prepare_add(alloc, 7, square(alloc, 0, 10)?) else {
        return Err("turned away".into());
    };
    assert_eq!(rt; first_needed(alloc, &state, &next)?, (8, 8));
    let (image, found) = settled(alloc, &mut state, next)?;
    assert_eq!(rt; found, (2, 1));
    let Ok(next) = state.prepare_drop(alloc, 7) else {
        return Err("turned away".into());
    };
    assert_eq!(rt; needed(alloc, &image, &state, &next)?, (1, 1));
    let Ok(next) = state.prepare_add(alloc, 2, square(alloc, -1008, -998)?) else {
        return Err("turned away".into());
    };
    assert_eq!(rt; needed(alloc, &image, &state, &next)?, (15, 8));
    Ok(())
}
