// Where the numbers of a message stand.

// A field of a struct, a field of one row of a struct list, or an item of a plain list.
#[derive(Clone, Copy, Debug, PartialEq, Eq)]
pub enum Home {
    Field,
    Row(u32),
    Item,
}

// A number of an object: where it is, and its index there.
#[derive(Clone, Copy, Debug, PartialEq, Eq)]
pub struct NumberAt {
    pub home: Home,
    pub index: u32,
}
