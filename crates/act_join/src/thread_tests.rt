//! Segments whose updates and batches are done side by side. Gates hold each side up until the other has come far enough.

use crate::{Ended, engine};
use act_grid::Settings;
use act_io::{Gate, MemSink, MemSource, Place};
use std::alloc::Global;
use std::sync::atomic::{AtomicU64, Ordering};
use std::test::Fail;
use std::thread::Threads;

/// How often a gate looks before it gives up.
const MOST_TURNS: u64 = 100_000_000;

const ZONE: &str = "zone,7,\"POLYGON((0 0,10 0,10 10,0 10,0 0))\"\n";

/// Holds the updater up before an update until a reader is bound to a version, and a reader with its version until so
/// many updates were tried.
#[derive(Drop)]
struct Sides {
    tries: u64,
    bound: AtomicU64,
    tried: AtomicU64,
    late: AtomicU64,
}

impl Sides {
    fn new(tries: u64) -> Sides {
        Sides {
            tries,
            bound: AtomicU64::new(0),
            tried: AtomicU64::new(0),
            late: AtomicU64::new(0),
        }
    }

    /// Waits until the number is there.
    fn wait(&self, number: &AtomicU64, wanted: u64) {
        for _ in 0..MOST_TURNS {
            if number.load(Ordering::SeqCst) >= wanted {
                return;
            }
        }
        self.late.fetch_add(1, Ordering::SeqCst);
    }
}

impl Gate for Sides {
    fn at(&self, _who: u32, place: Place, _number: u64) {
        match place {
            Place::Ready => self.wait(&self.bound, 1),
            Place::Published => {
                self.tried.fetch_add(1, Ordering::SeqCst);
            }
            Place::Bound => {
                self.bound.fetch_add(1, Ordering::SeqCst);
            }
            Place::Probed => self.wait(&self.tried, self.tries),
        }
    }
}

/// Holds each reader up at its version until so many readers have come there.
#[derive(Drop)]
struct Meeting {
    wanted: u64,
    came: [AtomicU64; 5],
    late: AtomicU64,
}

impl Meeting {
    fn new(wanted: u64) -> Meeting {
        Meeting {
            wanted,
            came: [
                AtomicU64::new(0),
                AtomicU64::new(0),
                AtomicU64::new(0),
                AtomicU64::new(0),
                AtomicU64::new(0),
            ],
            late: AtomicU64::new(0),
        }
    }

    /// How many readers have come.
    fn met(&self) -> u64 {
        let mut met: u64 = 0;
        for one in &self.came {
            if one.load(Ordering::SeqCst) > 0 {
                met = met.wrapping_add(1);
            }
        }
        met
    }
}

impl Gate for Meeting {
    fn at(&self, who: u32, place: Place, _number: u64) {
        if place != Place::Bound {
            return;
        }
        if let Some(one) = self.came.get(who as usize) {
            one.store(1, Ordering::SeqCst);
        }
        for _ in 0..MOST_TURNS {
            if self.met() >= self.wanted {
                return;
            }
        }
        self.late.fetch_add(1, Ordering::SeqCst);
    }
}

/// Runs a script with so many rows and workers, and keeps what was written.
fn run<T: Threads + Sync, G: Gate>(
    rt: &T,
    alloc: Global,
    rows: u32,
    workers: u32,
    script: &str,
    gate: &G,
) -> Result<MemSink, Fail> {
    let Some(settings) = Settings::new(0, rows, 64, workers) else {
        return Err(Fail::from("no settings"));
    };
    let mut input = MemSource::new(alloc, script.as_bytes(), 4096, [].as_slice())?;
    let mut out = MemSink::new(alloc, 4096, 4096, [].as_slice())?;
    if engine(rt, alloc, settings, &mut input, &mut out, gate) != Ended::Done {
        return Err(Fail::from("the script is not done"));
    }
    Ok(out)
}

#[test]
fn both_sides(rt: HostRuntime) -> Result<(), Fail> {
    let alloc = rt.alloc();
    let script = format!(in alloc; "point,1,5,5\nbatch\n{ZONE}")?;
    let gate = Sides::new(1);
    let out = run(&rt, alloc, 256, 2, script.as_str(), &gate)?;
    assert_eq!(rt; gate.late.load(Ordering::SeqCst), 0);
    assert_eq!(rt;
        out.bytes(),
        b"batch 1 after 0 points 1\nzone 7 ok\n".as_slice()
    );
    Ok(())
}

/// A reader holds version 0, whose rows the third update would need. It is made once the reader is back.
#[test]
fn a_held_update_is_made_later(rt: HostRuntime) -> Result<(), Fail> {
    let alloc = rt.alloc();
    let script = format!(in alloc; "point,1,0,0\nbatch\n{ZONE}drop,7\n{ZONE}")?;
    let gate = Sides::new(3);
    let out = run(&rt, alloc, 8, 1, script.as_str(), &gate)?;
    assert_eq!(rt; gate.late.load(Ordering::SeqCst), 0);
    let wanted = b"batch 1 after 0 points 1\nzone 7 ok\ndrop 7 ok\nzone 7 ok\n";
    assert_eq!(rt; out.bytes(), wanted.as_slice());
    Ok(())
}

#[test]
fn two_readers(rt: HostRuntime) -> Result<(), Fail> {
    let alloc = rt.alloc();
    let two = "point,1,0,0\nbatch\npoint,2,0,0\nbatch\n";
    let gate = Meeting::new(2);
    let out = run(&rt, alloc, 256, 2, two, &gate)?;
    assert_eq!(rt; gate.late.load(Ordering::SeqCst), 0);
    let wanted = b"batch 1 after 0 points 1\nbatch 2 after 0 points 1\n";
    assert_eq!(rt; out.bytes(), wanted.as_slice());
    let four = format!(in alloc; "{two}{two}")?;
    let gate = Meeting::new(4);
    let out = run(&rt, alloc, 256, 4, four.as_str(), &gate)?;
    assert_eq!(rt; gate.late.load(Ordering::SeqCst), 0);
    assert_eq!(rt; out.bytes().len(), 100);
    Ok(())
}
