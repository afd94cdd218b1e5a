//! The result of a strike.
use crate::clean::Clean;
use crate::struck::Struck;
use ft_types::Program;

/// The result of a strike: the run is struck, or there is nothing to strike.
#[derive(Drop)]
pub enum Hit<'a, 'w, P: Program> {
    /// The run that was struck.
    Struck(Struck<'a, 'w, P>),
    /// The run as it was.
    Idle(Clean<'a, P>),
}
