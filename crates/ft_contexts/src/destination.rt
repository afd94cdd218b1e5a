//! What is known of the destination register.
use ft_norm::Form;

/// What a context says about d: it is 0; it is a code address of this code type and form; or it is such an address if
/// the tested form denotes 0, and 0 otherwise.
#[derive(Clone, Copy, Debug)]
pub enum StateD {
    Zero,
    Code {
        code_type: u16,
        form: Form,
    },
    Conditional {
        test: Form,
        code_type: u16,
        form: Form,
    },
}
