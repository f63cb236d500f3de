//! What a run is handed of the outside.

/// A source, a sink, inputs, a disk and a world.
#[derive(Drop)]
pub struct Outside<S, K, I, D, W> {
    pub source: S,
    pub sink: K,
    pub inputs: I,
    pub disk: D,
    pub world: W,
}
