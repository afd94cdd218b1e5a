//! What is known of a register.
use ft_isa::{Basic, Colour};
use ft_norm::Form;

/// What a context says about a register: its colour, the basic type of its word, and the form that the word denotes.
#[derive(Clone, Copy, Debug)]
pub struct RegForm {
    pub colour: Colour,
    pub basic: Basic,
    pub form: Form,
}
