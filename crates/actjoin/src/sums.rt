//! The numbers that the demo shows.

ghost use Rattle.std.specs.Prelude.{◌≡◌, ◌+◌, IfSome, length};
ghost use Rattle.actjoin.specs.Demo.{keys_of, no_sums};
ghost use Rattle.actjoin.specs.Showing.{with_replies, with_reply};

use act_index::Pair;
use act_join::Reply;

/// Sums over replies. A sum past 2^64 - 1, which no demo reaches, isn't made.
#[derive(Clone, Copy, Debug, PartialEq, Eq)]
pub struct Sums {
    /// The zones that came to stand.
    pub zones: u64,
    pub batches: u64,
    /// The points of the batches.
    pub points: u64,
    /// The pairs of a point and a zone that it is inside.
    pub pairs: u64,
    /// The sum of the zones' keys over the pairs.
    pub keys: u64,
}

/// A number with the keys of pairs.
fn with_keys(keys: u64, pairs: &[Pair]) -> Option<u64>
    ensures { IfSome result (λ sum. sum ≡ keys + keys_of pairs.now) }
{
    let mut sum = keys;
    for pair in pairs {
        sum = sum.checked_add(pair.key as u64)?;
    }
    Some(sum)
}

impl Sums {
    /// Before the first reply.
    pub fn new() -> Sums
        ensures { result ≡ no_sums }
    {
        Sums {
            zones: 0,
            batches: 0,
            points: 0,
            pairs: 0,
            keys: 0,
        }
    }

    /// With a zone more.
    fn with_zone(self) -> Option<Sums>
        ensures { IfSome result (λ sums. sums ≡ record self { zones = self.zones + 1 }) }
    {
        let zones = self.zones.checked_add(1)?;
        Some(Sums { zones, ..self })
    }

    /// With a batch of so many points, and its pairs.
    fn with_batch(self, points: usize, pairs: &[Pair]) -> Option<Sums>
        ensures { IfSome result (λ sums. sums ≡ record self { batches = self.batches + 1; points = self.points + points; pairs = self.pairs + length pairs.now; keys = self.keys + keys_of pairs.now }) }
    {
        let batches = self.batches.checked_add(1)?;
        let points = self.points.checked_add(points as u64)?;
        let found = self.pairs.checked_add(pairs.len() as u64)?;
        let keys = with_keys(self.keys, pairs)?;
        Some(Sums {
            zones: self.zones,
            batches,
            points,
            pairs: found,
            keys,
        })
    }

    /// With a reply more.
    fn with_reply(self, reply: &Reply) -> Option<Sums>
        ensures { IfSome result (λ sums. sums ≡ with_reply reply.now self) }
    {
        match reply {
            Reply::Update { added: None, .. } => Some(self),
            Reply::Update { added: Some(_), .. } => self.with_zone(),
            Reply::Batch { batch, answer, .. } => {
                self.with_batch(batch.points.as_slice().len(), answer.pairs().as_slice())
            }
        }
    }

    /// With replies more.
    pub fn with_replies(self, replies: &[Reply]) -> Option<Sums>
        ensures { IfSome result (λ sums. sums ≡ with_replies replies.now self) }
    {
        let mut sums = self;
        for reply in replies {
            sums = sums.with_reply(reply)?;
        }
        Some(sums)
    }
}
