//! A registry to be read.
ghost use Rattle.registry.specs.Words.{RegistryFits};

/// The words of a registry, how many places it has, and how many of them are in use.
#[derive(Clone, Copy)]
pub struct Registry<'a> {
    pub words: &'a [u64],
    pub places: usize,
    pub count: usize,
    ghost fits: { RegistryFits words.now places count },
}
