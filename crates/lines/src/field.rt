/// A field, by its number. A byte can hold more numbers than there are fields: check and admission refuse those.
#[derive(Clone, Copy, PartialEq, Eq, Debug)]
pub struct Field(pub u8);
