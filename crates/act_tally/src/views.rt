//! What seats know. No value of these types is made. A clause reads an array as a list, of any length.

/// What the holder of the claims knows.
pub struct Keeper {
    pub pieces: u64,
    pub claimers: u64,
    /// How many claimers were handed out.
    pub handed: u64,
    /// How many of them were taken back.
    pub taken: u64,
    /// How many of those had met the end.
    pub ended: u64,
    /// The numbers that those had fetched.
    pub fetched: [u64; 0],
}

/// What a claimer knows.
pub struct Drawer {
    pub pieces: u64,
    /// The numbers that its own draws fetched, in order.
    pub fetched: [u64; 0],
    /// It has met the end.
    pub ended: bool,
}

/// What a seat knows.
pub enum View {
    Keeps(Keeper),
    Draws(Drawer),
    Spent,
}
