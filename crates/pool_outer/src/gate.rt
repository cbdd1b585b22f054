/// A daemon of the pool; machines are numbered from 0 in the configuration's order.
#[derive(Clone, Copy, Debug, PartialEq, Eq)]
pub enum Daemon {
    Schedd,
    Startd(u16),
    Matchmaker,
}

/// A point that a daemon passes.
#[derive(Clone, Copy)]
pub enum Point {
    /// The schedd, immediately before it appends to its log.
    Append,
    /// A daemon, after each act that the pool accepted.
    Acted(Daemon),
}

/// A gate, at which a test may hold a daemon.
pub trait Gate {
    fn pass(&self, point: Point);
}

/// A gate that holds nobody.
#[derive(Clone, Copy)]
pub struct OpenGate;

impl Gate for OpenGate {
    fn pass(&self, _point: Point) {}
}
