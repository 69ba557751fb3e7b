//! A table that a type names.

ghost use Rattle.tag_rule.specs.Shown.{Board};

use std::marker::Brand;

/// Names a table made by `make`, with the shape that it was made of. Contracts alone read it. What lies behind a lock is
/// known by its type alone, so a type with such a parameter keeps that its tokens are of the table that is named.
pub trait Name {
    ghost use Rattle.tag_rule.specs.Shown.{Board};

    ghost board: { Board };
}

impl Name for Brand {
    ghost use Rattle.tag_rule.specs.Names.{no_board};

    ghost board = { no_board };
}
