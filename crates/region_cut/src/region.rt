ghost use Rattle.std.specs.Prelude.{◌≡◌, ℕ, suc, map};
ghost use Rattle.region_cut.specs.RegionValues.{region_of};

/// A part of a diagram around its regular slices from one height to another, and at every depth
/// likewise.
///
/// A contract reads it as `region_of`, in the dimension of the diagram.
#[derive(Debug, Drop)]
pub enum Region {
    /// The whole of a diagram of dimension 0.
    All,
    /// The regular slices from `from` to `to` and the singular ones between them, each with a
    /// region of its own.
    Span {
        from: usize,
        to: usize,
        regs: Vec<Region>,
        sings: Vec<Region>,
    },
}

impl Region {
    /// The first regular height.
    pub(crate) fn from(&self) -> usize
        ensures { (d : ℕ) → result ≡ (region_of (suc d) self.now).from }
    {
        match self {
            Region::All => 0,
            Region::Span { from, .. } => *from,
        }
    }

    /// The last regular height.
    pub(crate) fn to(&self) -> usize
        ensures { (d : ℕ) → result ≡ (region_of (suc d) self.now).to }
    {
        match self {
            Region::All => 0,
            Region::Span { to, .. } => *to,
        }
    }

    /// The regions of the regular slices.
    pub(crate) fn regs(&self) -> &[Region]
        ensures { (d : ℕ) → map (region_of d) result.now ≡ (region_of (suc d) self.now).regs }
    {
        match self {
            Region::All => &[],
            Region::Span { regs, .. } => regs,
        }
    }

    /// The regions of the singular slices.
    pub(crate) fn sings(&self) -> &[Region]
        ensures { (d : ℕ) → map (region_of d) result.now ≡ (region_of (suc d) self.now).sings }
    {
        match self {
            Region::All => &[],
            Region::Span { sings, .. } => sings,
        }
    }
}
