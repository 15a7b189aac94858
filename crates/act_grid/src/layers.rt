//! Sets of layers.

/// A set of layers, 0 to 255. The layer of a zone is its key divided by 2^24, rounded down.
#[derive(Clone, Copy, Debug, PartialEq, Eq)]
pub struct Layers {
    // A bit for each layer, 64 a word.
    words: [u64; 4],
}

impl Layers {
    ghost use Rattle.std.specs.Prelude.{◌≡◌, ℕ, ◌<◌, Bool, true, false, ◌==◌, ◌||◌};
    ghost use Rattle.act_grid.specs.Layers.{all_layers, has_layer, layer_of, no_layers, with_layer};

    /// All layers.
    pub fn all() -> Layers
        ensures set { result ≡ all_layers }
        ensures each { (n : ℕ) → n < 256 → has_layer result n ≡ true }
    {
        Layers {
            words: [u64::MAX; 4],
        }
    }

    /// No layer.
    pub fn none() -> Layers
        ensures set { result ≡ no_layers }
        ensures each { (n : ℕ) → n < 256 → has_layer result n ≡ false }
    {
        Layers { words: [0; 4] }
    }

    /// The set with one layer more.
    pub fn with(self, layer: u8) -> Layers
        ensures set { result ≡ with_layer self layer }
        ensures each { (n : ℕ) → n < 256 → has_layer result n ≡ (n == layer || has_layer self n) }
    {
        let mut words = self.words;
        let at = layer as usize / 64;
        words[at] = words[at] | 1 << (layer % 64);
        Layers { words }
    }

    /// Whether the layer of a zone with this key is in the set.
    pub fn has(&self, key: u32) -> bool
        ensures { result ≡ has_layer self.now (layer_of key) }
    {
        let layer = key / 0x100_0000;
        let word = self.words[layer as usize / 64];
        (word >> (layer % 64)) & 1 == 1
    }
}
