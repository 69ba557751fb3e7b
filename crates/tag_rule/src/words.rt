//! The table that all seats share, with the shape that it was made of.

ghost use Rattle.std.specs.Prelude.{◌≡◌};
ghost use Rattle.tag_model.specs.Index.{word_count};
ghost use Rattle.tag_model.specs.Shape.{IsChecked};

use crate::rule::Law;
use crate::view::View;
use atomic_table::Table;
use std::alloc::Global;
use tag_model::Shape;

/// A seat at the table.
pub(crate) type Seat = atomic_table::Seat<(), View>;

/// The table. Each seat's token has a share of it.
#[derive(Drop)]
pub(crate) struct Words {
    pub table: Table<(), View, Shape, Law, Global>,
    pub shape: Shape,
    ghost made: { table.shared.key ≡ shape },
    ghost wide: { table.shared.table_id.words ≡ word_count shape },
    ghost checked: { IsChecked shape },
}
