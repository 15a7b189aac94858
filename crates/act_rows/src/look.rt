//! The writer looks at the pins of readers.
ghost use Rattle.std.specs.Prelude.{◌≡◌, ℕ, ◌<◌};
ghost use Rattle.act_rows.specs.Bounds.{least};
ghost use Rattle.act_rows.specs.Versions.{newest};
ghost use Rattle.act_rows.specs.Watched.{Watched, Found};

use crate::fact::Fact;
use crate::master::Master;

/// What one look found: the pin word that was loaded, and the reader's bound after it.
#[derive(Clone, Copy)]
pub struct Seen {
    pub word: u64,
    pub bound: u64,
}

/// The least of the current version and all bounds after looks at all readers. Where it is below the
/// current version, `reader` is the first reader that has it and `word` the pin word that was loaded.
#[derive(Clone, Copy)]
pub struct Lowest {
    pub bound: u64,
    pub reader: u32,
    pub word: u64,
}

/// Looks once at each lent reader.
pub fn look_at_all<F: Fact>(master: &mut Master<F>) -> Lowest
    ensures table { master.new.table ≡ master.old.table }
    ensures watched { Watched master.old.desk master.new.desk }
    ensures least { result.bound ≡ least (newest master.new.desk) master.new.desk.bounds }
    ensures found { result.bound < newest master.old.desk → Found master.old.desk master.new.desk master.old.desk.pins result.bound result.reader result.word }
{
    let mut bound = master.version();
    let mut reader = 0;
    let mut word = 0;
    for j in 0..master.pins() {
        if let Some(seen) = master.look(j) {
            if seen.bound < bound {
                bound = seen.bound;
                reader = j;
                word = seen.word;
            }
        }
    }
    Lowest {
        bound,
        reader,
        word,
    }
}
