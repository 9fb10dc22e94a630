// Calls as values.
use deciding::edit::Edit;
use number::home::NumberAt;
use number::kind::{Kind, Value};
use path::step::Step;

// What is done at the end of a path: an edit (one that writes a text writes the empty one), a text, the write of a number, or a question for a
// number or for the sizes.
#[derive(Drop)]
pub enum Action {
    Edit(Edit),
    Text(Vec<u8>),
    Set(NumberAt, Value),
    Get(NumberAt, Kind),
    Sizes,
}

#[derive(Drop)]
pub struct Call {
    pub path: Vec<Step>,
    pub action: Action,
}
