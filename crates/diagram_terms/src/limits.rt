/// The greatest dimension that a label, a diagram or an arrow has in a document, and a generator in
/// a signature.
pub const GREATEST_DIM: usize = 6;

/// The numbers of labels are below this.
pub const NUMBER_LIMIT: usize = 60_000;

/// How many generators a signature has at most: as many as labels have numbers.
pub const MAX_GENERATORS: usize = NUMBER_LIMIT;

/// How many bytes a name has at most.
pub const MAX_NAME_LENGTH: usize = 64;
