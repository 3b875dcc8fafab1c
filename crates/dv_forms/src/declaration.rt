use dv_value::text::Text;

/// A class that a script declares.
#[derive(Drop)]
pub struct Declaration {
    pub name: Text,
    /// The name of the class that it is under.
    pub parent: Text,
}
