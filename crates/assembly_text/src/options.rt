//! How a run answers.

/// What is asked of a run besides what stands in its text. Where nothing is, it prints the answers alone.
#[derive(Clone, Copy, Debug, Default, PartialEq, Eq)]
pub struct Options {
    /// Whether answers have their reasons behind them.
    pub reasons: bool,
    /// Whether each answer, and what is said of a bad line, is an object of JSON in a line.
    pub json: bool,
    /// Whether the status says that a check found something or a query stopped, and the standard error why a query stopped.
    pub tells_more: bool,
}
