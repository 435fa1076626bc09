// The values of text tasks.
ghost use Rattle.std.specs.Prelude.{◌≡◌};
ghost use Rattle.text_tasks.specs.Items.{item_place, item_text, item_token};

/// What a text task ends with.
#[derive(Drop)]
pub enum Item {
    /// A text. Its bytes may be shared with other values.
    Text(text_ops::Text),
    /// What a cell of a pipeline ends with.
    Cell(CellItem),
}

/// A token on its way through the pipes.
#[derive(Drop)]
pub struct CellItem {
    /// Its text, as the cell ends with it.
    pub text: text_ops::Text,
    /// The number of the part that the token began with.
    pub token: u64,
    /// The token's place in the order in which tokens pass the first pipe.
    pub place: u64,
}

impl Item {
    /// The text of a value.
    pub fn text(&self) -> &text_ops::Text
        ensures { result.now ≡ item_text self.now }
    {
        match self {
            Item::Text(text) => text,
            Item::Cell(cell) => &cell.text,
        }
    }

    /// Its token. A text alone counts as token 0.
    pub fn token(&self) -> u64
        ensures { result ≡ item_token self.now }
    {
        match self {
            Item::Text(_) => 0,
            Item::Cell(cell) => cell.token,
        }
    }

    /// The token's place in the order. A text alone counts as at place 0.
    pub fn place(&self) -> u64
        ensures { result ≡ item_place self.now }
    {
        match self {
            Item::Text(_) => 0,
            Item::Cell(cell) => cell.place,
        }
    }
}
