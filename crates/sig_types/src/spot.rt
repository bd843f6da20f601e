//! Places in a document, for those who walk down to them: the reader of a text and the check of a model.
//!
//! A spot is a few small numbers, copied from table to table on the way down, and the `Place` of a refusal is made of it
//! only where something is refused. One type serves tables, keys and elements, so that each place is spelled in one way:
//! `Spot::block(2).item(Kind::Link, 5).at(Key::Modes).element(0)`.
ghost use Rattle.std.specs.Prelude.{◌≡◌};
ghost use Rattle.sig_types.specs.Spots.{as_block, as_item, as_test, at_element, at_key, block_at, document_spot, item_at, place_of, test_at};

use crate::refusals::{Key, Kind, Place};

/// A table, a key of it, or an element of the array at the key, as far down as the numbers go. All count from 0.
#[derive(Clone, Copy, Debug)]
pub struct Spot {
    /// Which block of the document.
    pub block: Option<u64>,
    /// Which item of that kind in the block.
    pub item: Option<(Kind, u64)>,
    /// Which test of the point.
    pub test: Option<u64>,
    /// Which key of that table.
    pub key: Option<Key>,
    /// Which element of the array at the key.
    pub element: Option<u64>,
}

impl Spot {
    /// The document's own table.
    pub fn document() -> Spot
        ensures { result ≡ document_spot }
    {
        Spot {
            block: None,
            item: None,
            test: None,
            key: None,
            element: None,
        }
    }

    /// A block of the document.
    pub fn block(number: u64) -> Spot
        ensures { result ≡ block_at number }
    {
        Spot {
            block: Some(number),
            item: None,
            test: None,
            key: None,
            element: None,
        }
    }

    /// An item of the block that is here.
    pub fn item(self, kind: Kind, number: u64) -> Spot
        ensures { result ≡ item_at self kind number }
    {
        Spot {
            item: Some((kind, number)),
            ..self
        }
    }

    /// A test of the point that is here.
    pub fn test(self, number: u64) -> Spot
        ensures { result ≡ test_at self number }
    {
        Spot {
            test: Some(number),
            ..self
        }
    }

    /// A key of the table that is here.
    pub fn at(self, key: Key) -> Spot
        ensures { result ≡ at_key self key }
    {
        Spot {
            key: Some(key),
            ..self
        }
    }

    /// An element of the array that is here.
    pub fn element(self, number: u64) -> Spot
        ensures { result ≡ at_element self number }
    {
        Spot {
            element: Some(number),
            ..self
        }
    }

    /// The block that the element here is.
    pub fn as_block(self) -> Spot
        ensures { result ≡ as_block self }
    {
        Spot {
            block: self.element,
            ..Spot::document()
        }
    }

    /// The item that the element here is.
    pub fn as_item(self, kind: Kind) -> Spot
        ensures { result ≡ as_item kind self }
    {
        Spot {
            block: self.block,
            item: self.element.map(|number| (kind, number)),
            ..Spot::document()
        }
    }

    /// The test that the element here is.
    pub fn as_test(self) -> Spot
        ensures { result ≡ as_test self }
    {
        Spot {
            block: self.block,
            item: self.item,
            test: self.element,
            ..Spot::document()
        }
    }

    /// Where this is, as a refusal says it.
    pub fn place(self) -> Place
        ensures { result ≡ place_of self }
    {
        Place::In {
            block: self.block,
            item: self.item,
            test: self.test,
            key: self.key,
            element: self.element,
        }
    }
}
