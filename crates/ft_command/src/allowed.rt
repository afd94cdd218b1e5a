//! The options that a command takes.

/// The options that a command takes: `--steps` up to a number of steps, `--turns` up to a number of
/// turns, `--fault`, `--wild` and `--faults`.
#[derive(Clone, Copy, Debug, PartialEq, Eq)]
pub struct Allowed {
    pub steps: Option<u64>,
    pub turns: Option<u64>,
    pub fault: bool,
    pub wild: bool,
    pub faults: bool,
}
