use crate::Properties;

/// One way to run a task, tried for `expiration_secs` before the next.
#[derive(Debug, PartialEq, Drop)]
pub struct Slice {
    pub expiration_secs: u32,
    pub wait_for_capacity: bool,
    pub properties: Properties,
}

impl Slice {
    ghost use Rattle.std.specs.Prelude.{◌≡◌};
    ghost use Rattle.dimensions.specs.Rules.{pool_of};

    /// The pool of its dimensions.
    pub fn pool(&self) -> &str
        ensures { result.now ≡ pool_of self.now.properties.dimensions }
    {
        self.properties.dimensions.pool()
    }
}
