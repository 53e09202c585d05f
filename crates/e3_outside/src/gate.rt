// What holds a worker back.

/// A gate that a worker passes before each turn of work, in which it hands packets to its site. It has no meaning to any
/// contract: a test may hold workers in it.
pub trait Gate {
    /// Passes it, for this site.
    fn enter(&self, site: u32);
}

/// A gate that holds nobody.
#[derive(Drop)]
pub struct OpenGate;

impl Gate for OpenGate {
    fn enter(&self, _site: u32) {}
}
